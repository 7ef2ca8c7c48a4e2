// The reader of a sheet: the sheet's words, the place of its end, and where the entries' memory comes from. A `Reader` keeps its text
// to itself, so the place of the end stands here.
ghost use Rattle.std.specs.Prelude.{◌≡◌, length};

use std::alloc::Global;
use words::reader::Reader;

#[derive(Drop)]
pub(crate) struct SheetReader<'a> {
    pub(crate) words: Reader<'a>,
    pub(crate) end: usize,
    pub(crate) heap: Global,
    ghost whole: { end ≡ length words.text.now },
}
