// The sections of a sheet: a count, and that many entries of one kind.
ghost use Rattle.std.specs.Prelude.{ℕ, List};
ghost use Rattle.sheets.specs.Checks.{ComesTo, bare};
ghost use Rattle.sheets.specs.Contents.{Item, fit_of, key_of, sector_of};
ghost use Rattle.sheets.specs.Spots.{Spot};
ghost use Rattle.sheets.specs.Readings.{Reading, section, times};
ghost use Rattle.sheets.specs.Sheets.{fit_read, key_read, sector_read};
ghost use Rattle.sheets.specs.Steps.{ahead, listed, Step};

use crate::entries::{FitEntry, KeyEntry, SectorEntry};
use crate::faults::{Fault, ReadError};
use crate::sheet_reader::SheetReader;
use crate::steps::{check_count, check_value};
use ciphers::keys::Cipher;
use watch::side::Side;
use words::reader::Reader;

// A kind of entry: `item` is an entry as a plain value, and `form` how one is read from a list of words.
pub(crate) trait Entry: Sized {
    ghost item: { Self → Item };

    ghost form: { ℕ → List Spot → Reading Item };

    fn read(reader: &mut SheetReader) -> Result<Self, ReadError>
        ensures { Step item form reader.old result reader.new };

    // The next words have to be those of an entry of this kind, in a sheet of `end` bytes.
    fn check(words: &mut Reader, end: usize) -> Result<(), Fault>
        ensures { ComesTo (bare (form end (ahead words.old))) result (ahead words.new) };
}

impl Entry for FitEntry {
    ghost item = { fit_of };

    ghost form = { fit_read };

    fn read(reader: &mut SheetReader) -> Result<FitEntry, ReadError> {
        Ok(FitEntry {
            side: reader.value()?,
            octic: reader.value()?,
        })
    }

    fn check(words: &mut Reader, end: usize) -> Result<(), Fault> {
        check_value::<Side>(words, end)?;
        check_value::<u16>(words, end)
    }
}

impl Entry for KeyEntry {
    ghost item = { key_of };

    ghost form = { key_read };

    fn read(reader: &mut SheetReader) -> Result<KeyEntry, ReadError> {
        Ok(KeyEntry {
            side: reader.value()?,
            cipher: reader.value()?,
            key: reader.value()?,
        })
    }

    fn check(words: &mut Reader, end: usize) -> Result<(), Fault> {
        check_value::<Side>(words, end)?;
        check_value::<Cipher>(words, end)?;
        check_value::<[u8; 16]>(words, end)
    }
}

impl Entry for SectorEntry {
    ghost item = { sector_of };

    ghost form = { sector_read };

    fn read(reader: &mut SheetReader) -> Result<SectorEntry, ReadError> {
        Ok(SectorEntry {
            side: reader.value()?,
            bytes: reader.value()?,
        })
    }

    fn check(words: &mut Reader, end: usize) -> Result<(), Fault> {
        check_value::<Side>(words, end)?;
        check_value::<Vec<u8>>(words, end)
    }
}

// Entries of one kind, `count` of them.
fn entries_of<E: Entry + Drop>(reader: &mut SheetReader, count: u8) -> Result<Vec<E>, ReadError>
    ensures { Step (listed E.Entry.item) (λ end. times count (E.Entry.form end)) reader.old result reader.new }
{
    let mut entries = Vec::new(reader.heap);
    for _ in 0..count {
        entries.push(E::read(reader)?)?;
    }
    Ok(entries)
}

// A section of any kind of entry.
pub(crate) fn section_of<E: Entry + Drop>(reader: &mut SheetReader) -> Result<Vec<E>, ReadError>
    ensures { Step (listed E.Entry.item) (section E.Entry.form) reader.old result reader.new }
{
    let count = reader.value()?;
    entries_of(reader, count)
}

// A section of any kind of entry: a count, and that many entries.
pub(crate) fn check_section<E: Entry>(words: &mut Reader, end: usize) -> Result<(), Fault>
    ensures { ComesTo (bare (section E.Entry.form end (ahead words.old))) result (ahead words.new) }
{
    let count = check_count(words, end)?;
    for _ in 0..count {
        E::check(words, end)?;
    }
    Ok(())
}
