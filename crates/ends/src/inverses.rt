// The inverses of all bytes in the ring of an octic.
ghost use Rattle.std.specs.Prelude.{◌≡◌};
ghost use Rattle.boxes.specs.Boxes.{inverse_mod};
ghost use Rattle.ends.specs.Table.{inverses_mod};

// Entry x is the inverse of x, and by the boxes' rule 0 where there is none.
#[derive(Clone, Copy)]
pub struct Inverses {
    pub(super) octic: u16,
    pub(super) table: [u8; 256],
    ghost right: { table ≡ inverses_mod octic },
}

impl Inverses {
    pub(super) fn of(&self, x: u8) -> u8
        ensures { result ≡ inverse_mod self.now.octic x }
    {
        self.table[x as usize]
    }
}
