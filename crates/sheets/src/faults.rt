// Why a sheet is not read.
ghost use Rattle.std.specs.Prelude.{◌≡◌};
ghost use Rattle.sheets.specs.Numbers.{number_of};
ghost use Rattle.sheets.specs.declared.faults.ReadError.TheVariants.{Bad, NoMemory};

use std::alloc::{AllocError, AllocFailed};

// The refusals of a sheet.
#[derive(Clone, Copy, PartialEq, Eq, Debug)]
pub enum SheetRefusal {
    TooLong = 13,
    BadWord = 14,
    WordAfter = 15,
}

impl SheetRefusal {
    // The number that the writer of a sheet is answered by.
    pub fn number(self) -> u8
        ensures { result ≡ number_of self }
    {
        self as u8
    }
}

// A refusal, and the place that it is about.
#[derive(Clone, Copy, PartialEq, Eq, Debug)]
pub struct Fault {
    pub refusal: SheetRefusal,
    pub place: usize,
}

impl Fault {
    // The refusal of the word at a place, or of the word that is missing there.
    pub(crate) fn bad_word(place: usize) -> Fault
        ensures { result ≡ record { refusal = SheetRefusal.BadWord; place = place } }
    {
        Fault {
            refusal: SheetRefusal::BadWord,
            place,
        }
    }
}

// Why there is no sheet: it is refused, or there is no memory for its entries. Want of memory is an error of its own, since a bad sheet gets a
// line and a run without memory gets none.
#[derive(Clone, Copy, PartialEq, Eq, Debug)]
pub enum ReadError {
    Bad(Fault),
    NoMemory,
}

impl From<Fault> for ReadError {
    ghost from_gives = { λ fault r. r ≡ Bad fault };

    fn from(fault: Fault) -> Self {
        ReadError::Bad(fault)
    }
}

// Both errors of memory come by `?`, and neither turns into the other.
impl From<AllocError> for ReadError {
    ghost from_gives = { λ _ r. r ≡ NoMemory };

    fn from(_: AllocError) -> Self {
        ReadError::NoMemory
    }
}

impl<T: Drop> From<AllocFailed<T>> for ReadError {
    ghost from_gives = { λ _ r. r ≡ NoMemory };

    fn from(_: AllocFailed<T>) -> Self {
        ReadError::NoMemory
    }
}
