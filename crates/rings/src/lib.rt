// Rings of codes: a code is a number below 2 to the power of a width, and the sum of two codes is their exclusive or.
#![tactic(auto)]

ghost use Rattle.std.specs.Prelude.{◌≡◌, ℕ, ◌%◌, ◌^◌, ◌<◌, ◌≤◌};
ghost use Rattle.rings.specs.Laws.{Narrow, Laws, Inverts};

pub mod pairing;
pub mod poly;
pub mod powers;

// `WIDTH` is the width of the codes, and `mul` the product on them. Both calls read only the low bits of a code.
pub trait Ring {
    const WIDTH: u32;

    ghost WIDTH: { ℕ };

    ghost mul: { Self → ℕ → ℕ → ℕ };

    fn product(&self, a: u8, b: u8) -> u8
        ensures { result ≡ mul self.now (a % 2 ^ WIDTH) (b % 2 ^ WIDTH) };

    // The code whose product with `a` is 1, or none where there is no such code. (A loop: after a `find` over the codes the goals about
    // them stay open.)
    fn inverse(&self, a: u8) -> Option<u8>
        ensures { Inverts WIDTH 1 (mul self.now) (a % 2 ^ WIDTH) result }
    {
        let codes = 1u16 << Self::WIDTH;
        for b in 0..codes {
            if self.product(a, b as u8) == 1 {
                return Some(b as u8);
            }
        }
        None
    }

    ghost narrow: { Narrow WIDTH };

    ghost laws: { (r : Self) → Laws WIDTH 1 (mul r) };
}
