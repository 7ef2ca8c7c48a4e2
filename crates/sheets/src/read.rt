// Reads a sheet.
ghost use Rattle.std.specs.Prelude.{◌≡◌, IsOk};
ghost use Rattle.sheets.specs.Contents.{Answered, contents};
ghost use Rattle.sheets.specs.Good.{Judged};
ghost use Rattle.sheets.specs.Sheets.{sections, words_hold, sheet_of};
ghost use Rattle.sheets.specs.Steps.{Step};

use crate::check::check_sheet;
use crate::entries::Sheet;
use crate::faults::ReadError;
use crate::sections::section_of;
use crate::sheet_reader::SheetReader;
use crate::steps::{nothing_after, start};
use std::alloc::Global;

/// Reads a sheet, given as its bytes, into its entries, whose memory comes from `heap`.
///
/// The sheet is checked first: a bad one gets `Bad` with the refusal (13, 14 or 15) and the place that `check_sheet` answers.
/// Only a good one can get `NoMemory`, where there is no memory for its entries.
pub fn read_sheet(heap: Global, sheet: &[u8]) -> Result<Sheet, ReadError>
    ensures read { Answered (sheet_of sheet.now) result }
    ensures judged { Judged sheet.now }
{
    check_sheet(sheet)?;
    read_words(heap, sheet)
}

// The same of the words of a good sheet.
fn read_words(heap: Global, sheet: &[u8]) -> Result<Sheet, ReadError>
    requires { IsOk (words_hold sheet.now) }
    ensures { Answered (words_hold sheet.now) result }
{
    let mut reader = start(heap, sheet);
    let entries = read_sections(&mut reader)?;
    nothing_after(reader.words)?;
    Ok(entries)
}

// The three sections.
fn read_sections(reader: &mut SheetReader) -> Result<Sheet, ReadError>
    ensures { Step contents sections reader.old result reader.new }
{
    Ok(Sheet {
        fits: section_of(reader)?,
        keys: section_of(reader)?,
        sectors: section_of(reader)?,
    })
}
