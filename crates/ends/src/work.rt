// A guard over lent work bytes, which zeroes them at its end.
ghost use Rattle.ends.specs.Work.{Zero};

fn clear(bytes: &mut [u8])
    ensures { Zero bytes.new }
{
    bytes.fill(0);
}

pub struct Work<'a> {
    pub(super) bytes: &'a mut [u8],
}

impl Drop for Work<'_> {
    fn drop(self)
        ensures { Zero self.exit.0.now }
    {
        clear(self.bytes);
        let Work { bytes: _ } = self;
    }
}
