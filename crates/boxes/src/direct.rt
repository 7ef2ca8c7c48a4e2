// The boxes by inversion in the octic's ring, byte by byte.
ghost use Rattle.std.specs.Prelude.{◌≡◌, ◌/◌, ◌^◌};
ghost use Rattle.boxes.specs.Boxes.{inverse_mod};

use crate::Substitute;
use crate::sbox::Sbox;
use rings::Ring;
use rings::poly::Octic;

// The inverse of a byte in the ring of a box's octic, and by the boxes' rule 0 where there is none.
fn inverse<B: Sbox>(x: u8) -> u8
    ensures { result ≡ inverse_mod B.OCTIC x }
{
    Octic::new(B::OCTIC).inverse(x).unwrap_or(0)
}

// A box by inversion.
#[derive(Clone, Copy)]
pub struct Direct<B>(pub B);

impl<B: Sbox> Substitute for Direct<B> {
    ghost boxed = { λ _ x. B.after (inverse_mod B.OCTIC (B.before x)) };

    fn substitute(&self, x: u8) -> u8 {
        B::after(inverse::<B>(B::before(x)))
    }
}
