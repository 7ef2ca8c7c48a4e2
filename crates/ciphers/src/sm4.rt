// SM4.
ghost use Rattle.std.specs.Prelude.{◌≡◌, ℕ, ◌+◌, ◌*◌, ◌%◌, ◌^◌, ◌<◌, ◌≤◌, ◌++◌, map, length, bit_xor, take, drop, slice_index};
ghost use Rattle.std.specs.List.{range_with_len};
ghost use Rattle.ciphers.specs.Sm4.{word, word_at, four_bytes, bytes_of, four_words, tau, linear, linear_key, ck, key_words, schedule_s, reversed, cipher_s};

use boxes::Substitute;
use std::array;

// Word i of some bytes.
fn read_word(bytes: &[u8], i: usize) -> u32
    requires { 4 * i + 4 ≤ length bytes.now }
    ensures { result ≡ word_at bytes.now i }
{
    u32::from_be_bytes(array::from_fn(|j| bytes[4 * i + j]))
}

fn read_words(bytes: &[u8; 16]) -> [u32; 4]
    ensures { result ≡ four_words bytes.now }
{
    array::from_fn(|i| read_word(bytes, i))
}

// Word i of some bytes is set.
fn write_word(bytes: &mut [u8], i: usize, w: u32)
    requires { 4 * i + 4 ≤ length bytes.old }
    ensures { bytes.new ≡ take (4 * i) bytes.old ++ (four_bytes w ++ drop (4 * i + 4) bytes.old) }
{
    bytes[4 * i..4 * i + 4].copy_from_slice(&w.to_be_bytes());
}

fn substitute_word<B: Substitute>(boxes: &B, w: u32) -> u32
    ensures { result ≡ tau (B.boxed boxes.now) w }
{
    u32::from_be_bytes(w.to_be_bytes().map(|b| boxes.substitute(b)))
}

fn spread(b: u32) -> u32
    ensures { result ≡ linear b }
{
    b ^ b.rotate_left(2) ^ b.rotate_left(10) ^ b.rotate_left(18) ^ b.rotate_left(24)
}

// The map of the key schedule: other turns and fewer. One function for both would take a list of turns, and be no plainer.
fn spread_key(b: u32) -> u32
    ensures { result ≡ linear_key b }
{
    b ^ b.rotate_left(13) ^ b.rotate_left(23)
}

// The sum of the last three words and the key k, substituted: what a round spreads.
fn mixed<B: Substitute>(boxes: &B, x: [u32; 4], k: u32) -> u32
    ensures { result ≡ tau (B.boxed boxes.now) (bit_xor (bit_xor (bit_xor (slice_index x 1) (slice_index x 2)) (slice_index x 3)) k) }
{
    substitute_word(boxes, x[1] ^ x[2] ^ x[3] ^ k)
}

fn constant(i: usize) -> u32
    requires { i < 32 }
    ensures { result ≡ ck i }
{
    u32::from_be_bytes(array::from_fn(|j| (7 * (4 * i + j) % 256) as u8))
}

// Four words, each with a constant of its own.
fn first_key_words(key: &[u8; 16]) -> [u32; 4]
    ensures { result ≡ key_words key.now }
{
    let k = read_words(key);
    [
        k[0] ^ 0xa3b1bac6,
        k[1] ^ 0x56aa3350,
        k[2] ^ 0x677d9197,
        k[3] ^ 0xb27022dc,
    ]
}

// The round keys of a key, into the first 128 bytes of `work`. The words are written by their places, since after `chunks_mut` a proof
// does not know what was written; and the step is written out here and below: with a function for each a name is needed for its answer,
// since the check does not cover `x = f(x)` of an array.
pub(crate) fn expand<B: Substitute>(boxes: &B, key: &[u8; 16], work: &mut [u8; 176])
    ensures held { work.new ≡ bytes_of (schedule_s (B.boxed boxes.now) key.now) ++ drop 128 work.old }
    ensures words { (k : ℕ) → k < 32 → slice_index (schedule_s (B.boxed boxes.now) key.now) k < 2 ^ 32 }
{
    let mut x = first_key_words(key);
    for i in 0..32 {
        x = [
            x[1],
            x[2],
            x[3],
            x[0] ^ spread_key(mixed(boxes, x, constant(i))),
        ];
        write_word(work, i, x[3]);
    }
}

// The first 32 words of a work area.
pub(crate) fn read_keys(work: &[u8; 176]) -> [u32; 32]
    ensures { result ≡ map (word_at work.now) (range_with_len 0 32) }
{
    array::from_fn(|i| read_word(work, i))
}

fn written(x: [u32; 4]) -> [u8; 16]
    ensures { result ≡ reversed x }
{
    array::from_fn(|i| x[3 - i / 4].to_be_bytes()[i % 4])
}

// A block under round keys.
pub(crate) fn encrypt<B: Substitute>(boxes: &B, keys: &[u32; 32], block: [u8; 16]) -> [u8; 16]
    ensures { result ≡ cipher_s (B.boxed boxes.now) keys.now block }
{
    let mut x = read_words(&block);
    for k in keys {
        x = [x[1], x[2], x[3], x[0] ^ spread(mixed(boxes, x, *k))];
    }
    written(x)
}
