// Ring 13 through stored powers of code 2.
ghost use Rattle.std.specs.Prelude.{◌≡◌, ℕ, ◌%◌, ◌^◌, ◌<◌, slice_index, refl};
ghost use Rattle.rings.specs.Laws.{Inverts};
ghost use Rattle.rings.specs.Poly.{mul_mod};
ghost use Rattle.rings.specs.Powers.{powers, logs};
ghost use Rattle.std.proofs.Common.{lit<, rules};
ghost use Rattle.rings.specs.PolyLaws.{mul_mod_laws};

use crate::Ring;

// The powers of code 2, and for each code but 0 which power it is.
const POWERS: [u8; 15] = [1, 2, 4, 8, 3, 6, 12, 11, 5, 10, 7, 14, 15, 13, 9];

const LOGS: [u8; 16] = [0, 0, 1, 4, 2, 8, 5, 10, 3, 14, 9, 7, 6, 13, 11, 12];

#[derive(Clone, Copy)]
pub struct Powers13;

fn stored_power(n: usize) -> u8
    requires { n < 15 }
    ensures { result ≡ slice_index powers n }
{
    POWERS[n]
}

// A code of width 4.
#[derive(Clone, Copy)]
struct Nibble {
    bits: u8,
    ghost below: { bits < 16 },
}

impl Nibble {
    // The low four bits of a code.
    fn of(a: u8) -> Nibble
        ensures { result.bits ≡ a % 16 }
    {
        Nibble { bits: a % 16 }
    }

    fn stored_log(&self) -> usize
        ensures { (result ≡ slice_index logs self.now.bits) × (result < 15) }
    {
        LOGS[self.bits as usize] as usize
    }

    fn product(&self, other: &Nibble) -> u8
        ensures { result ≡ mul_mod 4 0x13 self.now.bits other.now.bits }
    {
        let (a, b) = (self.bits, other.bits);
        if a == 0 || b == 0 {
            return 0;
        }
        stored_power((self.stored_log() + other.stored_log()) % 15)
    }

    // The power that makes fifteen with the code's own.
    fn inverse(&self) -> Option<u8>
        ensures { Inverts 4 1 (mul_mod 4 0x13) self.now.bits result }
    {
        if self.bits == 0 {
            return None;
        }
        Some(stored_power((15 - self.stored_log()) % 15))
    }
}

impl Ring for Powers13 {
    const WIDTH: u32 = 4;

    ghost WIDTH = { 4 };

    ghost mul = { λ _. mul_mod 4 0x13 };

    ghost narrow = { Prim.search rules };

    ghost laws = { λ r. mul_mod_laws 4 0x13 refl (lit< tt) };

    fn product(&self, a: u8, b: u8) -> u8 {
        Nibble::of(a).product(&Nibble::of(b))
    }

    fn inverse(&self, a: u8) -> Option<u8> {
        Nibble::of(a).inverse()
    }
}
