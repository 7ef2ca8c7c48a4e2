// A lawful pair, told by numbers.
ghost use Rattle.towers.specs.Search.{Precedes};
ghost use Rattle.towers.specs.Tests.{Whether};

// The constant of the tower, the ones of both matrices together, and the columns of the map and of its reverse.
#[derive(Clone, Copy, Debug)]
pub struct Pair {
    pub constant: u8,
    pub ones: u8,
    pub columns: [u8; 8],
    pub reverse: [u8; 8],
}

impl Pair {
    // Whether this pair has fewer ones, or as many and the smaller constant, or the same and the smaller column where they first
    // differ. It is no `Ord`: an order reads every field, and the reverse does not count here.
    pub fn precedes(&self, other: &Pair) -> bool
        ensures { Whether (Precedes self.now other.now) result }
    {
        (self.ones, self.constant, self.columns) < (other.ones, other.constant, other.columns)
    }
}
