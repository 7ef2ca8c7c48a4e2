// Tokens: words by what is due at their place. Each holds its part of the sheet and its place.
ghost use Rattle.std.specs.Prelude.{◌≡◌};
ghost use Rattle.sheets.specs.Forms.{letter_of};
ghost use Rattle.sheets.specs.Steps.{Made, token_spot, bad_word};

use crate::digits::count_value;
use crate::faults::{Fault, ReadError};
use words::Word;

// A word where a count, a letter or digits are due. That each case holds its part of the sheet and its place is the form that the
// product prescribes.
#[derive(Clone, Copy)]
pub(crate) enum Token<'a> {
    Count {
        part: &'a [u8],
        place: usize,
        value: u8,
    },
    Letter {
        part: &'a [u8],
        place: usize,
        letter: char,
    },
    Digits {
        part: &'a [u8],
        place: usize,
    },
}

// What is due. Any word makes a token of digits: what the digits stand for says how many there have to be.
#[derive(Clone, Copy)]
pub(crate) enum Due {
    Count,
    Letter,
    Digits,
}

// The refusal of the word at a place.
pub(crate) fn bad_word(place: usize) -> ReadError
    ensures { result ≡ bad_word place }
{
    ReadError::Bad(Fault::bad_word(place))
}

// The letter of a word of one byte.
pub(crate) fn lone_letter(part: &[u8]) -> Option<char>
    ensures { result ≡ letter_of part.now }
{
    match part {
        [b] => Some(*b as char),
        _ => None,
    }
}

impl<'a> Token<'a> {
    // A word as the token that is due.
    pub(crate) fn of(word: Word<'a>, due: Due) -> Option<Token<'a>>
        ensures { Made due word.entry result }
    {
        let part = word.part;
        let place = word.place;
        match due {
            Due::Count => {
                let value = count_value(part)?;
                Some(Token::Count { part, place, value })
            }
            Due::Letter => {
                let letter = lone_letter(part)?;
                Some(Token::Letter {
                    part,
                    place,
                    letter,
                })
            }
            Due::Digits => Some(Token::Digits { part, place }),
        }
    }

    // The refusal of this word.
    pub(crate) fn refused(self) -> ReadError
        ensures { result ≡ bad_word (token_spot self.entry).place }
    {
        match self {
            Token::Count { place, .. }
            | Token::Letter { place, .. }
            | Token::Digits { place, .. } => bad_word(place),
        }
    }
}
