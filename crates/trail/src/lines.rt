// The lines of the report.
use crate::steps::{Steps, follow};
use rings::Ring;
use rings::poly::Octic;
use std::{fmt, io};
use towers::pair::Pair;
use words::shown::Misread;

// What a word should be.
const BYTE: &str = "byte: two hexadecimal digits, letters as capitals";

impl Steps {
    // Whether the byte that came back is the inverse found directly. The boxes' rule sends a byte without inverse to 0.
    fn agrees(&self) -> bool {
        Octic::new(0x11b).inverse(self.byte).unwrap_or(0) == self.trail.byte
    }
}

impl fmt::Display for Steps {
    fn fmt<W: fmt::Write>(&self, f: &mut fmt::Formatter<W>) -> fmt::Result {
        let trail = self.trail;
        write!(
            f,
            "{:02X}: code {:02X}, norm {:X}",
            self.byte, trail.code, self.norm
        )?;
        match self.norm_inverse {
            Some(inverse) => write!(f, ", its inverse {inverse:X}")?,
            None => f.write_str(" without inverse")?,
        }
        write!(
            f,
            ", inverse code {:02X}, byte {:02X}, box A {:02X}",
            trail.inverse, trail.byte, self.boxed
        )
    }
}

// How many bytes there were, and how many of them went to their inverse modulo 11B.
// Each line is printed as it is read, so no list is left to be counted.
#[derive(Clone, Copy, Default)]
pub struct Report {
    agree: usize,
    bytes: usize,
}

impl Report {
    fn add(&mut self, steps: &Steps) {
        self.bytes = self.bytes.saturating_add(1);
        self.agree = self.agree.saturating_add(usize::from(steps.agrees()));
    }
}

impl fmt::Display for Report {
    fn fmt<W: fmt::Write>(&self, f: &mut fmt::Formatter<W>) -> fmt::Result {
        write!(
            f,
            "{} of {} agree with the inverse modulo 11B",
            self.agree, self.bytes
        )
    }
}

// One line for each word.
pub(crate) fn print_all(rt: &impl Print, pair: &Pair, text: &[u8]) -> io::Result<Report> {
    let mut report = Report::default();
    let mut reader = words::over(text);
    while let Some(word) = reader.word() {
        match words::hex_byte(word.part) {
            Some(byte) => {
                let steps = follow(pair, byte);
                report.add(&steps);
                println!(rt; "{steps}")?;
            }
            None => println!(rt; "{}", Misread { word, what: BYTE })?,
        }
    }
    Ok(report)
}
