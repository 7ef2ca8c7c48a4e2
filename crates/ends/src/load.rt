// The choice of a cipher's box by a letter, and the load of a key.
ghost use Rattle.std.specs.Prelude.{◌≡◌};
ghost use Rattle.ends.specs.Choice.{Chosen, Loads, Works};
ghost use Rattle.ends.specs.Letters.{octic_of};
ghost use Rattle.ends.specs.Model.{block_cipher};

use crate::boxed::Boxed;
use crate::fitted::{Fitted, Loaded};
use boxes::sbox::{BoxA, BoxS, Sbox};
use ciphers::counter::work_sector;
use ciphers::keys::{Cipher, Schedule};
use refusals::Refusal;

// The octic in whose ring a cipher's box takes inverses.
pub(super) fn octic_of(cipher: Cipher) -> u16
    ensures { result ≡ octic_of cipher }
{
    match cipher {
        Cipher::Aes => BoxA::OCTIC,
        Cipher::Sm4 => BoxS::OCTIC,
    }
}

impl Fitted {
    // The box of the letter's cipher, if the fitted octic is the cipher's.
    pub(super) fn boxed_for(&self, letter: char) -> Result<Boxed, Refusal>
        ensures { Chosen self.now.inverses.octic letter result }
    {
        let cipher = Cipher::try_from(letter)?;
        if self.inverses.octic != octic_of(cipher) {
            return Err(Refusal::OtherOctic);
        }
        Ok(Boxed {
            cipher,
            inverses: self.inverses,
        })
    }

    // Expands a key in the work area, and takes its schedule from there.
    pub(super) fn load(&self, letter: char, key: &[u8], work: &mut [u8]) -> Result<Loaded, Refusal>
        ensures { Loads self.now.inverses.octic letter key.now work.old result }
    {
        let boxed = self.boxed_for(letter)?;
        let schedule = Schedule::new(&boxed, boxed.cipher, key, work)?;
        Ok(Loaded { boxed, schedule })
    }
}

impl Loaded {
    // The counter mode in the caller's bytes: seals them, or opens what was sealed.
    pub(super) fn work(&self, name: u16, number: u64, bytes: &mut [u8]) -> Result<(), Refusal>
        ensures { Works (block_cipher self.now) name number bytes.old result bytes.new }
    {
        work_sector(&self.boxed, &self.schedule, name, number, bytes)
    }
}
