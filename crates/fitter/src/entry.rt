// What the words of an entry name: a ring, and its published pairs.
ghost use Rattle.std.specs.Prelude.{◌≡◌};
ghost use Rattle.fitter.specs.Entries.{ring_of, published_of};

use refusals::Refusal;
use rings::pairing::Pairing;
use rings::poly::{Four, Quartic};
use rings::powers::Powers13;
use towers::pair::Pair;

// A ring that the yard fits.
#[derive(Clone, Copy, PartialEq, Eq)]
pub enum Choice {
    Ring13,
    Ring19,
    Ring1F,
    Powers,
    FourWith2,
    FourWith3,
}

// A pair as it was published: its constant, and its ones in both matrices.
#[derive(Clone, Copy)]
pub struct Published {
    pub constant: u8,
    pub ones: u8,
    pub columns: [u8; 8],
}

// The ring that a word names; no other program reads these names.
pub(crate) fn ring_named(part: &[u8]) -> Option<Choice>
    ensures { result ≡ ring_of part.now }
{
    match part {
        b"13" => Some(Choice::Ring13),
        b"19" => Some(Choice::Ring19),
        b"1F" => Some(Choice::Ring1F),
        b"13P" => Some(Choice::Powers),
        b"4:2" => Some(Choice::FourWith2),
        b"4:3" => Some(Choice::FourWith3),
        _ => None,
    }
}

// The pair that was published for a ring and an octic.
pub(crate) fn published_for(choice: Choice, octic: u16) -> Option<Published>
    ensures { result ≡ published_of choice octic }
{
    match (choice, octic) {
        (Choice::Ring13 | Choice::Powers, 0x11b) => Some(Published {
            constant: 12,
            ones: 45,
            columns: [0x01, 0xe0, 0x5d, 0xb0, 0x42, 0xe5, 0x10, 0x82],
        }),
        (Choice::Ring13 | Choice::Powers, 0x1f5) => Some(Published {
            constant: 15,
            ones: 44,
            columns: [0x01, 0x50, 0x0d, 0x7a, 0xc5, 0x5a, 0x32, 0x08],
        }),
        _ => None,
    }
}

// The rings are of different types, and a type's width is a constant, so no one `dyn Ring` can stand for them.
pub(crate) fn fit_of(choice: Choice, octic: u16) -> Result<Pair, Refusal> {
    match choice {
        Choice::Ring13 => towers::fit(&Quartic::Ring13, octic),
        Choice::Ring19 => towers::fit(&Quartic::Ring19, octic),
        Choice::Ring1F => towers::fit(&Quartic::Ring1F, octic),
        Choice::Powers => towers::fit(&Powers13, octic),
        Choice::FourWith2 => towers::fit(&Pairing::new(Four, 2), octic),
        Choice::FourWith3 => towers::fit(&Pairing::new(Four, 3), octic),
    }
}
