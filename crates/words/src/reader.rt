// The reader: the text's own bytes and a position in them.
ghost use Rattle.std.specs.Prelude.{◌≤◌, length};

#[derive(Drop)]
pub struct Reader<'a> {
    pub(super) text: &'a [u8],
    pub(super) at: usize,
    ghost inside: { at ≤ length text.now },
}
