// Words and bytes as text for a report.
ghost use Rattle.std.specs.Prelude.{Some, flat_map};
ghost use Rattle.words.specs.Shown.{digits_of, space_and_digits, shown, misread};

use crate::Word;
use std::fmt;

/// A byte as its two hexadecimal digits, the higher one first.
#[derive(Clone, Copy)]
struct Byte(u8);

impl fmt::Display for Byte {
    ghost output = { λ b. Some (digits_of b.0) };

    fn fmt<W: fmt::Write>(&self, f: &mut fmt::Formatter<W>) -> fmt::Result {
        let byte = self.0;
        write!(f, "{byte:02X}")
    }
}

/// A byte as it is shown in a report: one that is no printable character of ASCII by its two digits in angle brackets.
#[derive(Clone, Copy)]
struct ShownByte(u8);

impl fmt::Display for ShownByte {
    ghost output = { λ b. Some (shown b.0) };

    fn fmt<W: fmt::Write>(&self, f: &mut fmt::Formatter<W>) -> fmt::Result {
        match self.0 {
            b @ b'!'..=b'~' => write!(f, "{}", b as char),
            b => write!(f, "<{}>", Byte(b)),
        }
    }
}

/// Bytes as they are shown in a report: those that are no printable character of ASCII by their two digits in angle brackets.
#[derive(Clone, Copy)]
pub struct Shown<'a>(pub &'a [u8]);

impl fmt::Display for Shown<'_> {
    ghost output = { λ s. Some (flat_map shown s.0.now) };

    fn fmt<W: fmt::Write>(&self, f: &mut fmt::Formatter<W>) -> fmt::Result {
        for b in self.0 {
            fmt::Display::fmt(&ShownByte(*b), f)?;
        }
        Ok(())
    }
}

/// A word that could not be read, with its place, and what it should be: `WORD at PLACE is no WHAT`.
#[derive(Clone, Copy)]
pub struct Misread<'a> {
    pub word: Word<'a>,
    pub what: &'a str,
}

impl fmt::Display for Misread<'_> {
    ghost output = { λ m. Some (misread m) };

    fn fmt<W: fmt::Write>(&self, f: &mut fmt::Formatter<W>) -> fmt::Result {
        let Misread { word, what } = *self;
        write!(f, "{} at {} is no {what}", Shown(word.part), word.place)
    }
}

/// Bytes by two hexadecimal digits each.
#[derive(Clone, Copy)]
pub struct Digits<'a>(pub &'a [u8]);

impl fmt::Display for Digits<'_> {
    ghost output = { λ d. Some (flat_map digits_of d.0.now) };

    fn fmt<W: fmt::Write>(&self, f: &mut fmt::Formatter<W>) -> fmt::Result {
        for b in self.0 {
            write!(f, "{}", Byte(*b))?;
        }
        Ok(())
    }
}

/// Bytes by two hexadecimal digits each, each byte after a space.
#[derive(Clone, Copy)]
pub struct Spaced<'a>(pub &'a [u8]);

impl fmt::Display for Spaced<'_> {
    ghost output = { λ s. Some (flat_map space_and_digits s.0.now) };

    fn fmt<W: fmt::Write>(&self, f: &mut fmt::Formatter<W>) -> fmt::Result {
        for b in self.0 {
            write!(f, " {}", Byte(*b))?;
        }
        Ok(())
    }
}
