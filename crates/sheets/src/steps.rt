// The steps of reading and of checking a sheet: a word, a token, and what a token stands for.
ghost use Rattle.std.specs.Prelude.{◌≡◌, length};
ghost use Rattle.sheets.specs.Checks.{ComesTo, bare};
ghost use Rattle.sheets.specs.Forms.{count_of};
ghost use Rattle.sheets.specs.Readings.{word_as};
ghost use Rattle.sheets.specs.Spots.{spots};
ghost use Rattle.sheets.specs.Steps.{ahead, left, no_more, Taken, Tokened, Step};

use crate::digits::count_value;
use crate::faults::{Fault, ReadError, SheetRefusal};
use crate::sheet_reader::SheetReader;
use crate::tokens::{Due, Token, bad_word};
use crate::values::Value;
use std::alloc::Global;
use words::reader::Reader;
use words::{Word, over};

// A reader at the start of a sheet.
pub(crate) fn start<'a>(heap: Global, sheet: &'a [u8]) -> SheetReader<'a>
    ensures words { left result ≡ spots 0 sheet.now }
    ensures end { result.end ≡ length sheet.now }
{
    SheetReader {
        words: over(sheet),
        end: sheet.len(),
        heap,
    }
}

// The next word of a reader of words, or none.
pub(crate) fn next_word<'a>(words: &mut Reader<'a>) -> Option<Word<'a>>
    ensures taken { Taken (ahead words.old) result (ahead words.new) }
    ensures kept { words.new.text.now ≡ words.old.text.now }
{
    words.word()
}

impl<'a> SheetReader<'a> {
    // The next word, or none.
    pub(crate) fn word(&mut self) -> Option<Word<'a>>
        ensures taken { Taken (left self.old) result (left self.new) }
        ensures kept { self.new.end ≡ self.old.end }
    {
        next_word(&mut self.words)
    }

    // The next word as the token that is due.
    fn token(&mut self, due: Due) -> Result<Token<'a>, ReadError>
        ensures read { Tokened due self.old.end (left self.old) result (left self.new) }
        ensures kept { self.new.end ≡ self.old.end }
    {
        let end = self.end;
        let word = self.word().ok_or(bad_word(end))?;
        Token::of(word, due).ok_or(bad_word(word.place))
    }

    // The value that the next word stands for.
    pub(crate) fn value<T: Value>(&mut self) -> Result<T, ReadError>
        ensures { Step T.Value.item (word_as T.Value.form) self.old result self.new }
    {
        let token = self.token(T::DUE)?;
        T::of(self.heap, token)
    }
}

// The next word has to stand for a value of its kind.
pub(crate) fn check_value<T: Value>(words: &mut Reader, end: usize) -> Result<(), Fault>
    ensures { ComesTo (bare (word_as T.Value.form end (ahead words.old))) result (ahead words.new) }
{
    let word = next_word(words).ok_or(Fault::bad_word(end))?;
    if !T::stands(word.part) {
        return Err(Fault::bad_word(word.place));
    }
    Ok(())
}

// The next word has to be a count.
pub(crate) fn check_count(words: &mut Reader, end: usize) -> Result<u8, Fault>
    ensures { ComesTo (word_as count_of end (ahead words.old)) result (ahead words.new) }
{
    let word = next_word(words).ok_or(Fault::bad_word(end))?;
    count_value(word.part).ok_or(Fault::bad_word(word.place))
}

// No word may be left.
pub(crate) fn nothing_after(mut words: Reader) -> Result<(), Fault>
    ensures { result ≡ no_more (ahead words.entry) }
{
    match next_word(&mut words) {
        None => Ok(()),
        Some(word) => Err(Fault {
            refusal: SheetRefusal::WordAfter,
            place: word.place,
        }),
    }
}
