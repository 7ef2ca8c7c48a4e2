// Checks a sheet: whether it is good, by its bytes alone.
ghost use Rattle.std.specs.Prelude.{◌≡◌};
ghost use Rattle.sheets.specs.Checks.{ComesTo, bare, verdict};
ghost use Rattle.sheets.specs.Good.{Judged};
ghost use Rattle.sheets.specs.Sheets.{sections, sheet_of, words_hold};
ghost use Rattle.sheets.specs.Steps.{ahead};

use crate::entries::{FitEntry, KeyEntry, SectorEntry};
use crate::faults::{Fault, SheetRefusal};
use crate::sections::check_section;
use crate::steps::nothing_after;
use words::over;
use words::reader::Reader;

/// The most bytes that a sheet may have.
pub const LONGEST: usize = 16384;

/// Checks a sheet, given as its bytes. It allocates nothing.
///
/// A good sheet gets `Ok`. A bad one gets its refusal and the place that this is about; places count bytes from 0.
/// - 13: the sheet has over 16,384 bytes; the place is 16,384.
/// - 14: a word is of the wrong form, or a count is above 64; the place is that word's. Or a word is missing; the place is the sheet's
///   length.
/// - 15: a word stands after the last section; the place is that word's.
///
/// The length is looked at first; then the first bad word decides.
pub fn check_sheet(sheet: &[u8]) -> Result<(), Fault>
    ensures checked { result ≡ verdict (sheet_of sheet.now) }
    ensures judged { Judged sheet.now }
{
    if sheet.len() > LONGEST {
        return Err(Fault {
            refusal: SheetRefusal::TooLong,
            place: LONGEST,
        });
    }
    check_words(sheet)
}

// The same, whatever the sheet's length.
fn check_words(sheet: &[u8]) -> Result<(), Fault>
    ensures { result ≡ verdict (words_hold sheet.now) }
{
    let mut words = over(sheet);
    check_sections(&mut words, sheet.len())?;
    nothing_after(words)
}

// The three sections, of a sheet of `end` bytes.
fn check_sections(words: &mut Reader, end: usize) -> Result<(), Fault>
    ensures { ComesTo (bare (sections end (ahead words.old))) result (ahead words.new) }
{
    check_section::<FitEntry>(words, end)?;
    check_section::<KeyEntry>(words, end)?;
    check_section::<SectorEntry>(words, end)
}
