// AES-128.
ghost use Rattle.std.specs.Prelude.{◌≡◌, ◌+◌, ◌*◌, ◌/◌, ◌%◌, ◌<◌, ◌≤◌, ◌++◌, length, drop};
ghost use Rattle.rings.specs.Poly.{mul_mod};
ghost use Rattle.ciphers.specs.Aes.{sub_bytes, shifted, shift_rows, mixed, mix_columns, add_round_key, power, temp, next_byte, key_expansion, full_round, last_round, cipher_a};

use boxes::Substitute;
use std::array;

// Twice a byte, modulo the polynomial 11B.
fn double(b: u8) -> u8
    ensures { result ≡ mul_mod 8 0x11b 2 b }
{
    (b << 1) ^ ((b >> 7) * 0x1b)
}

// Three times a byte, modulo the polynomial 11B.
fn triple(b: u8) -> u8
    ensures { result ≡ mul_mod 8 0x11b 3 b }
{
    b ^ double(b)
}

fn sub_bytes<B: Substitute>(boxes: &B, s: [u8; 16]) -> [u8; 16]
    ensures { result ≡ sub_bytes (B.boxed boxes.now) s }
{
    // With `map` over the bytes a sector takes a seventh more instructions.
    array::from_fn(|i| boxes.substitute(s[i]))
}

// The byte that comes to row r and column c.
fn shifted_byte(s: [u8; 16], r: usize, c: usize) -> u8
    requires { (r < 4) × (c < 4) }
    ensures { result ≡ shifted s r c }
{
    s[r + 4 * ((c + r) % 4)]
}

fn shift_rows(s: [u8; 16]) -> [u8; 16]
    ensures { result ≡ shift_rows s }
{
    array::from_fn(|i| shifted_byte(s, i % 4, i / 4))
}

// The byte in row r and column c after the columns are mixed.
fn mixed_byte(s: [u8; 16], r: usize, c: usize) -> u8
    requires { (r < 4) × (c < 4) }
    ensures { result ≡ mixed s r c }
{
    double(s[r + 4 * c])
        ^ triple(s[(r + 1) % 4 + 4 * c])
        ^ s[(r + 2) % 4 + 4 * c]
        ^ s[(r + 3) % 4 + 4 * c]
}

fn mix_columns(s: [u8; 16]) -> [u8; 16]
    ensures { result ≡ mix_columns s }
{
    array::from_fn(|i| mixed_byte(s, i % 4, i / 4))
}

fn add_round_key(w: &[u8; 176], n: usize, s: [u8; 16]) -> [u8; 16]
    requires { n ≤ 10 }
    ensures { result ≡ add_round_key w.now n s }
{
    array::from_fn(|i| s[i] ^ w[16 * n + i])
}

// The power j of the indeterminate, modulo 11B.
fn power_of_x(j: usize) -> u8
    ensures { result ≡ power j }
{
    let mut r = 1;
    for _ in 0..j {
        r = double(r);
    }
    r
}

// The byte that is added to make byte n of a schedule, which stands in word n / 4. Boxes and schedule come apart: the schedule is the
// array that is being written.
fn temp_byte<B: Substitute>(boxes: &B, w: &[u8; 176], n: usize) -> u8
    requires { (16 ≤ n) × (n < 176) }
    ensures { result ≡ temp (B.boxed boxes.now) w.now (n / 4) (n % 4) }
{
    let (i, j) = (n / 4, n % 4);
    if i % 4 != 0 {
        return w[4 * (i - 1) + j];
    }
    let constant = if j == 0 { power_of_x(i / 4 - 1) } else { 0 };
    boxes.substitute(w[4 * (i - 1) + (j + 1) % 4]) ^ constant
}

// Byte n of a schedule, from the words before it.
fn next_byte<B: Substitute>(boxes: &B, w: &[u8; 176], n: usize) -> u8
    requires { (16 ≤ n) × (n < 176) }
    ensures { result ≡ next_byte (B.boxed boxes.now) w.now (n / 4) (n % 4) }
{
    w[n - 16] ^ temp_byte(boxes, w, n)
}

// The schedule of a key.
pub(crate) fn expand<B: Substitute>(boxes: &B, key: &[u8; 16], work: &mut [u8; 176])
    ensures { work.new ≡ key_expansion (B.boxed boxes.now) key.now }
{
    work[..16].copy_from_slice(key);
    // Each byte is made of those before it in the same array, so this goes by index.
    for n in 16..176 {
        work[n] = next_byte(boxes, work, n);
    }
}

// The bound on n, here and where a round key is added, says that a schedule has eleven round keys; a type for n would be taken apart at
// each use.
fn round<B: Substitute>(boxes: &B, w: &[u8; 176], n: usize, s: [u8; 16]) -> [u8; 16]
    requires { n ≤ 10 }
    ensures { result ≡ full_round (B.boxed boxes.now) w.now n s }
{
    add_round_key(w, n, mix_columns(shift_rows(sub_bytes(boxes, s))))
}

fn final_round<B: Substitute>(boxes: &B, w: &[u8; 176], s: [u8; 16]) -> [u8; 16]
    ensures { result ≡ last_round (B.boxed boxes.now) w.now s }
{
    add_round_key(w, 10, shift_rows(sub_bytes(boxes, s)))
}

// A block under a schedule.
pub(crate) fn encrypt<B: Substitute>(boxes: &B, w: &[u8; 176], block: [u8; 16]) -> [u8; 16]
    ensures { result ≡ cipher_a (B.boxed boxes.now) w.now block }
{
    let s = (1..10).fold(
        add_round_key(w, 0, block),
        |s: [u8; 16], n: usize| -> [u8; 16]
            requires { n ≤ 10 }
            ensures { result ≡ full_round (B.boxed boxes.entry.now) w.entry.now n s }
        { round(boxes, w, n, s) },
    );
    final_round(boxes, w, s)
}
