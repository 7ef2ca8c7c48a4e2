// The refusals, each with its number.
#![tactic(auto)]

ghost use Rattle.std.specs.Prelude.{◌≡◌, Some};
ghost use Rattle.refusals.specs.Numbers.{number_of, answer_of};
ghost use Rattle.refusals.specs.Sentences.{sentence_of, numbered_of};

use std::fmt;

#[derive(Clone, Copy, PartialEq, Eq, Debug)]
pub enum Refusal {
    NotField = 1,
    NotOctic = 2,
    Divisible = 3,
    NoFit = 4,
    UnknownLetter = 5,
    OtherOctic = 6,
    KeyLength = 7,
    SmallWork = 8,
    NoKey = 9,
    OtherName = 10,
    SectorLength = 11,
    NumbersUsedUp = 12,
}

impl Refusal {
    // The number that callers are answered by.
    pub fn number(self) -> u8
        ensures { result ≡ number_of self }
    {
        self as u8
    }
}

// 0 where a call was accepted, and else the refusal's number.
pub fn answer_number(answer: Result<(), Refusal>) -> u8
    ensures { result ≡ answer_of answer }
{
    answer.err().map_or(0, |refusal| refusal.number())
}

// A sentence for the reader of a report.
fn sentence(refusal: Refusal) -> &'static str
    ensures { result.now ≡ sentence_of refusal }
{
    match refusal {
        Refusal::NotField => "the ring is no field of width 4",
        Refusal::NotOctic => "the octic lies outside 256 to 511",
        Refusal::Divisible => "the octic has a divisor of degree 1 to 4",
        Refusal::NoFit => "the end has no fit",
        Refusal::UnknownLetter => "the letter is neither A nor S",
        Refusal::OtherOctic => "the fitted octic is not the letter's",
        Refusal::KeyLength => "the key has not 16 bytes",
        Refusal::SmallWork => "the work area has under 176 bytes",
        Refusal::NoKey => "the end has no key",
        Refusal::OtherName => "the ticket bears another name",
        Refusal::SectorLength => "the sector has 0 bytes or more than 4096",
        Refusal::NumbersUsedUp => "the next number is the largest of 64 bits",
    }
}

impl fmt::Display for Refusal {
    ghost output = { λ r. Some (sentence_of r) };

    fn fmt<W: fmt::Write>(&self, f: &mut fmt::Formatter<W>) -> fmt::Result {
        f.write_str(sentence(*self))
    }
}

// A refusal with its number, as a report has it.
#[derive(Clone, Copy)]
pub struct Numbered(pub Refusal);

impl fmt::Display for Numbered {
    ghost output = { λ n. Some (numbered_of n.0) };

    fn fmt<W: fmt::Write>(&self, f: &mut fmt::Formatter<W>) -> fmt::Result {
        let refusal = self.0;
        let number = refusal.number();
        write!(f, "refused with {number}, {refusal}")
    }
}
