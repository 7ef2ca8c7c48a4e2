// The entries of a sheet at two ends.
ghost use Rattle.std.specs.Prelude.{◌≡◌, IfOk, Ok, Decides};
ghost use Rattle.watch.specs.Watched.{kind, world};
ghost use Rattle.sheets.specs.Contents.{Item, fit_of, key_of, sector_of};
ghost use Rattle.sheets.specs.Contents.Item.{sector_item};
ghost use Rattle.runs.specs.declared.line.Line.TheVariants.{Sector};
ghost use Rattle.runs.specs.Printed.{Entered};

use crate::bearing::bearing;
use crate::line::{Line, Passed};
use refusals::Refusal;
use rings::Ring;
use sheets::entries::{FitEntry, KeyEntry, SectorEntry};
use std::alloc::{AllocError, Global};
use watch::side::Side;
use watch::two::Watch;

// An entry that makes its calls and prints its line.
pub trait Perform {
    ghost item: { Self → Item };

    fn perform<X: Ring, Y: Ring>(
        &self,
        heap: Global,
        ends: &mut Watch<X, Y>,
    ) -> Result<Line, AllocError>
        ensures { IfOk result (λ l. Entered (world (kind X.Ring.WIDTH X.Ring.mul) (kind Y.Ring.WIDTH Y.Ring.mul) ends.old) (item self.now) l (world (kind X.Ring.WIDTH X.Ring.mul) (kind Y.Ring.WIDTH Y.Ring.mul) ends.new)) };
}

impl Perform for FitEntry {
    ghost item = { fit_of };

    fn perform<X: Ring, Y: Ring>(
        &self,
        _heap: Global,
        ends: &mut Watch<X, Y>,
    ) -> Result<Line, AllocError> {
        let answer = ends.fit(self.side, self.octic);
        Ok(Line::Fit(self.side, answer.map(|_| ())))
    }
}

impl Perform for KeyEntry {
    ghost item = { key_of };

    fn perform<X: Ring, Y: Ring>(
        &self,
        _heap: Global,
        ends: &mut Watch<X, Y>,
    ) -> Result<Line, AllocError> {
        let mut work = [0; 176];
        let answer = ends.key(self.side, self.cipher.into(), &self.key, &mut work);
        Ok(Line::Key(self.side, answer))
    }
}

// Whether an opening was accepted and gave the first bytes.
fn came_back(opened: Result<(), Refusal>, bytes: &[u8], first: &[u8]) -> bool
    ensures { Decides result ((opened ≡ Ok tt) × (bytes.now ≡ first.now)) }
{
    opened.is_ok() && bytes == first
}

// Draws and seals the bytes at an end and opens them at the other; `first` are the same bytes, and stay.
fn carry<X: Ring, Y: Ring>(
    ends: &mut Watch<X, Y>,
    side: Side,
    first: &[u8],
    bytes: &mut [u8],
) -> Result<Passed, Refusal>
    requires { bytes.old ≡ first.now }
    ensures { Entered (world (kind X.Ring.WIDTH X.Ring.mul) (kind Y.Ring.WIDTH Y.Ring.mul) ends.old) (sector_item side first.now) (Sector side result) (world (kind X.Ring.WIDTH X.Ring.mul) (kind Y.Ring.WIDTH Y.Ring.mul) ends.new) }
{
    let ticket = ends.draw(side)?;
    let name = ticket.name();
    let number = ticket.number();
    ends.seal(side, ticket, bytes)?;
    let opened = ends.open(side.other(), name, number, bytes);
    Ok(Passed {
        number,
        bearing: bearing(number),
        same: came_back(opened, bytes, first),
    })
}

impl Perform for SectorEntry {
    ghost item = { sector_of };

    fn perform<X: Ring, Y: Ring>(
        &self,
        heap: Global,
        ends: &mut Watch<X, Y>,
    ) -> Result<Line, AllocError> {
        let mut bytes = self.bytes.to_vec(heap)?;
        let answer = carry(ends, self.side, &self.bytes, &mut bytes);
        Ok(Line::Sector(self.side, answer))
    }
}
