// The counter mode, in the caller's bytes.
ghost use Rattle.std.specs.Prelude.{◌≡◌, ℕ, ◌<◌, ◌≤◌, List, length};
ghost use Rattle.ciphers.specs.Counter.{laid_out, counter_block, counted_block, Tells, Gives, Covers, InRange, Pads, sector_pads, counted_pads, Worked};
ghost use Rattle.ciphers.specs.Keys.{cipher_of};

use crate::keys::Schedule;
use boxes::Substitute;
use refusals::Refusal;

// The bytes of a sector's counter block.
fn lay_out(name: u16, number: u64, index: u16) -> [u8; 16]
    ensures { result ≡ laid_out name number index }
{
    let [a, b] = name.to_be_bytes();
    let [c, d, e, f, g, h, i, j] = number.to_be_bytes();
    let [k, l] = index.to_be_bytes();
    [a, b, c, d, e, f, g, h, i, j, 0, 0, 0, 0, k, l]
}

// The counter block of a sector's block.
pub fn counter_block(name: u16, number: u64, index: u16) -> [u8; 16]
    ensures value { result ≡ counter_block name number index }
    ensures tells { Tells name number index result }
{
    lay_out(name, number, index)
}

// The counter block with an index, where the first one is given.
fn counted(first: u128, index: u16) -> [u8; 16]
    ensures { result ≡ counted_block first index }
{
    first.wrapping_add(index as u128).to_be_bytes()
}

// Puts a pad over the bytes, as far as they go.
fn cover(pad: [u8; 16], bytes: &mut [u8])
    requires { length bytes.old ≤ 16 }
    ensures { Covers pad 0 16 bytes.old bytes.new }
{
    // After a `zip` of the bytes with the pad a proof does not know what was written.
    for (k, b) in bytes.iter_mut().enumerate() {
        *b ^= pad[k];
    }
}

// Puts the pads over the bytes, one for each 16; `block` gives the counter blocks by their indices.
fn pad_bytes<B: Substitute, F: Fn(u16) -> [u8; 16]>(
    boxes: &B,
    keys: &Schedule,
    block: F,
    bytes: &mut [u8],
)
    requires range { InRange bytes.old }
    requires callable { F.IsAlwaysCallable block }
    ensures { (blocks : ℕ → List ℕ) → Gives (F.post block) blocks → Pads (λ i. cipher_of (B.boxed boxes.now) keys.now (blocks i)) bytes.old bytes.new }
{
    // After `chunks_mut`, or a loop that splits what is left, a proof does not know what was written, so each part is taken by its bounds.
    for i in 0..bytes.len().div_ceil(16) {
        let pad = keys.encrypt(boxes, block(i as u16));
        let end = bytes.len().min(16 * i + 16);
        cover(pad, &mut bytes[16 * i..end]);
    }
}

fn work<B: Substitute, F: Fn(u16) -> [u8; 16]>(
    boxes: &B,
    keys: &Schedule,
    block: F,
    bytes: &mut [u8],
) -> Result<(), Refusal>
    requires { F.IsAlwaysCallable block }
    ensures { (blocks : ℕ → List ℕ) → Gives (F.post block) blocks → Worked (λ i. cipher_of (B.boxed boxes.now) keys.now (blocks i)) bytes.old result bytes.new }
{
    if bytes.is_empty() || bytes.len() > 4096 {
        return Err(Refusal::SectorLength);
    }
    pad_bytes(boxes, keys, block, bytes);
    Ok(())
}

// Seals the bytes of a sector in place, or opens them: the same call does both. Name and number stand side by side, as in the calls of
// an end and in the function for C; boxes and keys come as the caller has them, and an end holds both in one struct.
pub fn work_sector<B: Substitute>(
    boxes: &B,
    keys: &Schedule,
    name: u16,
    number: u64,
    bytes: &mut [u8],
) -> Result<(), Refusal>
    ensures { Worked (sector_pads (cipher_of (B.boxed boxes.now) keys.now) name number) bytes.old result bytes.new }
{
    let block = |index: u16| -> [u8; 16]
        ensures { result ≡ counter_block name number index }
    { counter_block(name, number, index) };
    work(boxes, keys, block, bytes)
}

// The same with the counter blocks that rise by 1 from a first one.
pub fn work_from<B: Substitute>(
    boxes: &B,
    keys: &Schedule,
    first: u128,
    bytes: &mut [u8],
) -> Result<(), Refusal>
    ensures { Worked (counted_pads (cipher_of (B.boxed boxes.now) keys.now) first) bytes.old result bytes.new }
{
    let block = |index: u16| -> [u8; 16]
        ensures { result ≡ counted_block first index }
    { counted(first, index) };
    work(boxes, keys, block, bytes)
}
