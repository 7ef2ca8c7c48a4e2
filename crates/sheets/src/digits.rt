// Words of digits: counts, keys and sectors.
ghost use Rattle.std.specs.Prelude.{◌≡◌, ◌*◌, ◌%◌, ◌≤◌, Decides, is_some, length};
ghost use Rattle.std.specs.List.{list_all};
ghost use Rattle.words.specs.Hex.{hex_value};
ghost use Rattle.sheets.specs.Forms.{decimal, one_or_two, count_of, key_bytes, sector_bytes};
ghost use Rattle.sheets.specs.Steps.{Decoded, Held};

use std::alloc::{AllocError, Global};
use words::{hex_byte, hex_value};

// The value of a decimal digit.
fn decimal_value(b: u8) -> Option<u8>
    ensures { result ≡ decimal b }
{
    match b as char {
        '0'..='9' => Some(b - b'0'),
        _ => None,
    }
}

// The number of one or two digits.
fn number(part: &[u8]) -> Option<u8>
    ensures { result ≡ one_or_two part.now }
{
    match part {
        [a] => decimal_value(*a),
        [a, b] => {
            let tens = decimal_value(*a)?;
            let ones = decimal_value(*b)?;
            Some(tens * 10 + ones)
        }
        _ => None,
    }
}

// A count, at most 64.
pub(crate) fn count_value(part: &[u8]) -> Option<u8>
    ensures { result ≡ count_of part.now }
{
    number(part).filter(|n| *n <= 64)
}

// Writes the bytes of the digits, two digits to a byte, or stops at a byte that is no digit.
fn decode(digits: &[u8], bytes: &mut [u8]) -> Option<()>
    requires { length digits.now ≡ 2 * length bytes.old }
    ensures { Decoded digits.now result bytes.new }
{
    // A `zip` of the bytes with the pairs of digits proves nothing of what is written.
    for (i, byte) in bytes.iter_mut().enumerate() {
        *byte = hex_byte(&digits[2 * i..2 * i + 2])?;
    }
    Some(())
}

// A key: 32 digits.
pub(crate) fn key_value(part: &[u8]) -> Option<[u8; 16]>
    ensures { result ≡ key_bytes part.now }
{
    if part.len() != 32 {
        return None;
    }
    let mut key = [0; 16];
    decode(part, &mut key)?;
    Some(key)
}

// Whether a sector may have so many digits.
fn sector_length(count: usize) -> bool
    ensures { Decides result ((2 ≤ count) × (count ≤ 512) × (count % 2 ≡ 0)) }
{
    2 <= count && count <= 512 && count % 2 == 0
}

// Whether a word is a sector's digits.
pub(crate) fn has_sector_digits(part: &[u8]) -> bool
    ensures { result ≡ is_some (sector_bytes part.now) }
{
    if !sector_length(part.len()) {
        return false;
    }
    all_digits(part)
}

// Whether all bytes are hexadecimal digits.
fn all_digits(part: &[u8]) -> bool
    ensures { result ≡ list_all (λ b. is_some (hex_value b)) part.now }
{
    part.iter().all(|b| hex_value(*b).is_some())
}

// A sector: 2 to 512 digits, an even count of them.
pub(crate) fn sector_value(heap: Global, part: &[u8]) -> Result<Option<Vec<u8>>, AllocError>
    ensures { Held (sector_bytes part.now) result }
{
    let count = part.len();
    if !sector_length(count) {
        return Ok(None);
    }
    let mut bytes = vec![in heap; 0; count / 2]?;
    Ok(decode(part, &mut bytes).map(|()| bytes))
}
