// The box of a cipher, by the inverses in the ring of its octic.
ghost use Rattle.std.specs.Prelude.{◌≡◌};
ghost use Rattle.boxes.specs.Boxes.{inverse_mod};
ghost use Rattle.ends.specs.Letters.{octic_of, box_of};

use crate::inverses::Inverses;
use boxes::Substitute;
use boxes::sbox::{BoxA, BoxS, Sbox};
use ciphers::keys::Cipher;

#[derive(Clone, Copy)]
pub struct Boxed {
    pub(super) cipher: Cipher,
    pub(super) inverses: Inverses,
    ghost fits: { inverses.octic ≡ octic_of cipher },
}

// A box by the inverses in the ring of an octic.
fn by<B: Sbox>(inverses: &Inverses, x: u8) -> u8
    ensures { result ≡ B.after (inverse_mod inverses.now.octic (B.before x)) }
{
    B::after(inverses.of(B::before(x)))
}

impl Substitute for Boxed {
    ghost boxed = { λ s. box_of s.cipher };

    fn substitute(&self, x: u8) -> u8 {
        match self.cipher {
            Cipher::Aes => by::<BoxA>(&self.inverses, x),
            Cipher::Sm4 => by::<BoxS>(&self.inverses, x),
        }
    }
}
