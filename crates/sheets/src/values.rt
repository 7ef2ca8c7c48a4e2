// What the words of a sheet stand for: counts, ends, ciphers, octics, keys and sectors.
ghost use Rattle.std.specs.Prelude.{◌≡◌, ℕ, List, Option, None, is_some, vec_items};
ghost use Rattle.ciphers.specs.declared.keys.Cipher.{Cipher as CipherType};
ghost use Rattle.watch.specs.declared.side.Side.{Side as SideType};
ghost use Rattle.sheets.specs.declared.tokens.Due.{Due as DueType};
ghost use Rattle.sheets.specs.declared.tokens.Due.TheVariants.{Count as DueCount, Letter as DueLetter, Digits as DueDigits};
ghost use Rattle.sheets.specs.Forms.{count_of, side_named, side_of, cipher_of, octic_of, key_bytes, sector_bytes};
ghost use Rattle.sheets.specs.Shapes.{no_count, no_side, no_cipher, no_digits};
ghost use Rattle.sheets.specs.Steps.{Shaped, Stands, shape};

use crate::digits::{count_value, has_sector_digits, key_value, sector_value};
use crate::faults::ReadError;
use crate::tokens::{Due, Token, bad_word, lone_letter};
use ciphers::keys::Cipher;
use std::alloc::Global;
use watch::side::Side;
use words::hex_triple;

// A kind of value: `form` says what a word stands for as a plain value, and `item` is a value as a plain one.
pub(crate) trait Value: Sized {
    ghost Plain: { Type 0 };

    ghost item: { Self → Plain };

    ghost form: { List ℕ → Option Plain };

    // What is due where a value of this kind is read.
    ghost DUE: { DueType };

    const DUE: Due;

    // The value of a token.
    fn of(heap: Global, token: Token) -> Result<Self, ReadError>
        requires { Shaped DUE token }
        ensures { Stands form item token.entry result };

    // Whether a word stands for a value of this kind.
    fn stands(part: &[u8]) -> bool
        ensures { result ≡ is_some (form part.now) };

    // A word that makes no token stands for nothing.
    ghost shaped: { (bs : List ℕ) → shape DUE bs ≡ None → form bs ≡ None };
}

// A count.
impl Value for u8 {
    ghost Plain = { ℕ };

    ghost item = { λ n. n };

    ghost form = { count_of };

    ghost DUE = { DueCount };

    const DUE: Due = Due::Count;

    ghost shaped = { no_count };

    fn of(_heap: Global, token: Token) -> Result<u8, ReadError> {
        match token {
            Token::Count { value, .. } => Ok(value),
            other => Err(other.refused()),
        }
    }

    fn stands(part: &[u8]) -> bool {
        count_value(part).is_some()
    }
}

// The end of a letter: H or D. Sheets read these letters and lines print them, and nothing else has them: so each match stands at its one
// place.
fn side_value(letter: char) -> Option<Side>
    ensures { result ≡ side_named letter }
{
    match letter {
        'H' => Some(Side::First),
        'D' => Some(Side::Second),
        _ => None,
    }
}

// An end.
impl Value for Side {
    ghost Plain = { SideType };

    ghost item = { λ s. s };

    ghost form = { side_of };

    ghost DUE = { DueLetter };

    const DUE: Due = Due::Letter;

    ghost shaped = { no_side };

    fn of(_heap: Global, token: Token) -> Result<Side, ReadError> {
        match token {
            Token::Letter { letter, place, .. } => side_value(letter).ok_or(bad_word(place)),
            other => Err(other.refused()),
        }
    }

    fn stands(part: &[u8]) -> bool {
        lone_letter(part).and_then(side_value).is_some()
    }
}

// A cipher, by its letter.
impl Value for Cipher {
    ghost Plain = { CipherType };

    ghost item = { λ c. c };

    ghost form = { cipher_of };

    ghost DUE = { DueLetter };

    const DUE: Due = Due::Letter;

    ghost shaped = { no_cipher };

    fn of(_heap: Global, token: Token) -> Result<Cipher, ReadError> {
        match token {
            Token::Letter { letter, place, .. } => {
                Cipher::try_from(letter).map_err(|_| bad_word(place))
            }
            other => Err(other.refused()),
        }
    }

    fn stands(part: &[u8]) -> bool {
        match lone_letter(part) {
            Some(letter) => Cipher::try_from(letter).is_ok(),
            None => false,
        }
    }
}

// An octic: three digits.
impl Value for u16 {
    ghost Plain = { ℕ };

    ghost item = { λ n. n };

    ghost form = { octic_of };

    ghost DUE = { DueDigits };

    const DUE: Due = Due::Digits;

    ghost shaped = { no_digits octic_of };

    fn of(_heap: Global, token: Token) -> Result<u16, ReadError> {
        match token {
            Token::Digits { part, place } => hex_triple(part).ok_or(bad_word(place)),
            other => Err(other.refused()),
        }
    }

    fn stands(part: &[u8]) -> bool {
        hex_triple(part).is_some()
    }
}

// A key: 32 digits.
impl Value for [u8; 16] {
    ghost Plain = { List ℕ };

    ghost item = { λ key. key };

    ghost form = { key_bytes };

    ghost DUE = { DueDigits };

    const DUE: Due = Due::Digits;

    ghost shaped = { no_digits key_bytes };

    fn of(_heap: Global, token: Token) -> Result<[u8; 16], ReadError> {
        match token {
            Token::Digits { part, place } => key_value(part).ok_or(bad_word(place)),
            other => Err(other.refused()),
        }
    }

    fn stands(part: &[u8]) -> bool {
        key_value(part).is_some()
    }
}

// The bytes of a sector: an even count of digits, 2 to 512.
impl Value for Vec<u8> {
    ghost Plain = { List ℕ };

    ghost item = { vec_items };

    ghost form = { sector_bytes };

    ghost DUE = { DueDigits };

    const DUE: Due = Due::Digits;

    ghost shaped = { no_digits sector_bytes };

    fn of(heap: Global, token: Token) -> Result<Vec<u8>, ReadError> {
        match token {
            Token::Digits { part, place } => sector_value(heap, part)?.ok_or(bad_word(place)),
            other => Err(other.refused()),
        }
    }

    fn stands(part: &[u8]) -> bool {
        has_sector_digits(part)
    }
}
