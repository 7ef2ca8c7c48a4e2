// Keys that are loaded.
ghost use Rattle.std.specs.Prelude.{◌≡◌, ◌≤◌, ◌++◌, length, take, drop};
ghost use Rattle.ciphers.specs.Aes.{key_expansion};
ghost use Rattle.ciphers.specs.Sm4.{bytes_of, schedule_s};
ghost use Rattle.ciphers.specs.Keys.{Loaded, cipher_of};

use crate::{aes, sm4};
use boxes::Substitute;
use refusals::Refusal;

// A letter chooses the cipher while the program runs: so it is an enum that its users match, with no heap for a `dyn`.
#[derive(Clone, Copy, PartialEq, Eq, Debug)]
pub enum Cipher {
    Aes,
    Sm4,
}

// The schedule of a key: for AES its bytes, for SM4 its round keys.
#[derive(Drop)]
pub enum Schedule {
    AesBytes([u8; 176]),
    Sm4Words([u32; 32]),
}

fn sm4_words<B: Substitute>(boxes: &B, key: &[u8; 16], work: &mut [u8; 176]) -> [u32; 32]
    ensures schedule { result ≡ schedule_s (B.boxed boxes.now) key.now }
    ensures held { work.new ≡ bytes_of result ++ drop 128 work.old }
{
    sm4::expand(boxes, key, work);
    sm4::read_keys(work)
}

impl Schedule {
    // The schedule of a key, worked out in the work area and taken from there. Not inlined: a call that is refused before it comes here
    // would clear the room for it all the same.
    #[inline(never)]
    pub fn new<B: Substitute>(
        boxes: &B,
        cipher: Cipher,
        key: &[u8],
        work: &mut [u8],
    ) -> Result<Schedule, Refusal>
        ensures { Loaded (B.boxed boxes.now) cipher key.now work.old result work.new }
    {
        let key = key.as_array().ok_or(Refusal::KeyLength)?;
        let front = work.first_chunk_mut().ok_or(Refusal::SmallWork)?;
        match cipher {
            Cipher::Aes => {
                aes::expand(boxes, key, front);
                Ok(Schedule::AesBytes(*front))
            }
            Cipher::Sm4 => Ok(Schedule::Sm4Words(sm4_words(boxes, key, front))),
        }
    }

    // A block under the schedule.
    pub fn encrypt<B: Substitute>(&self, boxes: &B, block: [u8; 16]) -> [u8; 16]
        ensures { result ≡ cipher_of (B.boxed boxes.now) self.now block }
    {
        match self {
            Schedule::AesBytes(bytes) => aes::encrypt(boxes, bytes, block),
            Schedule::Sm4Words(words) => sm4::encrypt(boxes, words, block),
        }
    }
}
