// The lines that a sheet prints.
ghost use Rattle.std.specs.Prelude.{◌≡◌, Some};
ghost use Rattle.runs.specs.Lines.{letter_of, mark_of, text_of};

use refusals::{Refusal, answer_number};
use sheets::faults::Fault;
use std::fmt;
use watch::side::Side;

// A sector that was sealed: its number and bearing, and whether the other end gave the first bytes back.
#[derive(Clone, Copy)]
pub struct Passed {
    pub number: u64,
    pub bearing: u16,
    pub same: bool,
}

// A line: of a bad sheet, or of an entry.
#[derive(Clone, Copy)]
pub enum Line {
    Bad(Fault),
    Fit(Side, Result<(), Refusal>),
    Key(Side, Result<(), Refusal>),
    Sector(Side, Result<Passed, Refusal>),
}

// The letter of an end.
fn letter(side: Side) -> &'static str
    ensures { result.now ≡ letter_of side }
{
    match side {
        Side::First => "H",
        Side::Second => "D",
    }
}

// Whether the first bytes came back, as a letter.
fn mark(same: bool) -> &'static str
    ensures { result.now ≡ mark_of same }
{
    if same { "Y" } else { "N" }
}

impl fmt::Display for Line {
    ghost output = { λ l. Some (text_of l) };

    fn fmt<W: fmt::Write>(&self, f: &mut fmt::Formatter<W>) -> fmt::Result {
        match *self {
            Line::Bad(fault) => {
                let n = fault.refusal.number();
                let place = fault.place;
                write!(f, "E {n} {place}")
            }
            Line::Fit(side, answer) => {
                let end = letter(side);
                let n = answer_number(answer);
                write!(f, "F {end} {n}")
            }
            Line::Key(side, answer) => {
                let end = letter(side);
                let n = answer_number(answer);
                write!(f, "K {end} {n}")
            }
            Line::Sector(side, Ok(passed)) => {
                let end = letter(side);
                let number = passed.number;
                let bearing = passed.bearing;
                let same = mark(passed.same);
                write!(f, "S {end} 0 {number} {bearing} {same}")
            }
            Line::Sector(side, Err(refusal)) => {
                let end = letter(side);
                let n = refusal.number();
                write!(f, "S {end} {n}")
            }
        }
    }
}
