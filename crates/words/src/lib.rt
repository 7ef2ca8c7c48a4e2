// Reads the words of a text of bytes: each word is a part of the text, with its place.
#![tactic(auto)]

ghost use Rattle.std.specs.Prelude.{◌≡◌, ℕ, ◌^◌, ◌<◌, ◌≤◌, T, true, false, length, slice_index, IfSome};
ghost use Rattle.words.specs.Words.{Blank, Next};
ghost use Rattle.words.specs.Hex.{hex_value, hex_number, hex_byte, hex_triple};

pub mod reader;
pub mod shown;

use reader::Reader;

// A word and the index of its first byte.
#[derive(Clone, Copy)]
pub struct Word<'a> {
    pub part: &'a [u8],
    pub place: usize,
}

// The value of a hexadecimal digit; letters are capitals.
pub fn hex_value(b: u8) -> Option<u8>
    ensures { result ≡ hex_value b }
{
    match b as char {
        '0'..='9' => Some(b - b'0'),
        'A'..='F' => Some(b - b'A' + 10),
        _ => None,
    }
}

// The number that a word of so many hexadecimal digits stands for.
fn hex_number<const DIGITS: usize>(part: &[u8]) -> Option<u128>
    requires { DIGITS ≤ 32 }
    ensures value { result ≡ hex_number DIGITS part.now }
    ensures short { IfSome result (λ n. n < 16 ^ DIGITS) }
{
    if part.len() != DIGITS {
        return None;
    }
    let mut value = 0;
    for b in part {
        value = value * 16 + u128::from(hex_value(*b)?);
    }
    Some(value)
}

// The byte that a word of two hexadecimal digits stands for.
pub fn hex_byte(part: &[u8]) -> Option<u8>
    ensures { result ≡ hex_byte part.now }
{
    hex_number::<2>(part).map(|n| n as u8)
}

// The number that a word of three hexadecimal digits stands for.
pub fn hex_triple(part: &[u8]) -> Option<u16>
    ensures { result ≡ hex_triple part.now }
{
    hex_number::<3>(part).map(|n| n as u16)
}

fn blank(b: u8) -> bool
    ensures yes { T result → Blank b }
    ensures only { Blank b → T result }
{
    matches!(b as char, ' ' | '\n')
}

// A reader at the start of a text.
pub fn over<'a>(text: &'a [u8]) -> Reader<'a>
    ensures { (result.text.now ≡ text.now) × (result.at ≡ 0) }
{
    Reader { text, at: 0 }
}

impl<'a> Reader<'a> {
    // The next word, or none where only blanks are left.
    pub fn word(&mut self) -> Option<Word<'a>>
        ensures next { Next self.old.text.now self.old.at result self.new.at }
        ensures kept { self.new.text.now ≡ self.old.text.now }
    {
        let text = self.text;
        let place = first(text, self.at, |b| !blank(b));
        let end = first(text, place, blank);
        self.at = end;
        if place == end {
            return None;
        }
        Some(Word {
            part: &text[place..end],
            place,
        })
    }
}

// The first index from `at` on whose byte passes, or the text's length.
fn first<P: Fn(u8) -> bool>(text: &[u8], at: usize, passes: P) -> usize
    requires inside { at ≤ length text.now }
    requires callable { P.IsAlwaysCallable passes }
    ensures within { (at ≤ result) × (result ≤ length text.now) }
    ensures before { (k : ℕ) → at ≤ k → k < result → P.post passes (slice_index text.now k) false }
    ensures stops { result < length text.now → P.post passes (slice_index text.now result) true }
{
    let rest = &text[at..];
    let count = rest.iter().position(|b| passes(*b));
    at + count.unwrap_or(rest.len())
}
