// Runs a sheet at two ends.
ghost use Rattle.std.specs.Prelude.{◌≡◌, map, IfErr, IfOk, IsOk, OnOk};
ghost use Rattle.watch.specs.Watched.{kind, world};
ghost use Rattle.sheets.specs.Contents.{contents};
ghost use Rattle.sheets.specs.Sheets.{sheet_of};
ghost use Rattle.runs.specs.Lines.{lines_of};
ghost use Rattle.runs.specs.Printed.{Extended, Ran, Commissions};

use crate::line::Line;
use crate::perform::Perform;
use crate::printout::Printout;
use display_ring::display_ring;
use rings::Ring;
use rings::poly::Quartic;
use sheets::entries::Sheet;
use sheets::faults::ReadError;
use sheets::read::read_sheet;
use std::alloc::{AllocError, Global};
use watch::two::Watch;

// Performs the entries in their order, and adds their lines.
fn perform_all<E: Perform, X: Ring, Y: Ring>(
    heap: Global,
    ends: &mut Watch<X, Y>,
    entries: &[E],
    lines: &mut Vec<Line>,
) -> Result<(), AllocError>
    ensures { OnOk result (Extended (world (kind X.Ring.WIDTH X.Ring.mul) (kind Y.Ring.WIDTH Y.Ring.mul) ends.old) (map E.Perform.item entries.now) lines.old.items lines.new.items (world (kind X.Ring.WIDTH X.Ring.mul) (kind Y.Ring.WIDTH Y.Ring.mul) ends.new)) }
{
    for e in entries {
        let line = e.perform(heap, ends)?;
        lines.push(line)?;
    }
    Ok(())
}

// The lines of a sheet that was read: fits, keys and sectors, at H over ring 13 under name 1 and D over the display's ring under
// name 2, both from number 0.
fn perform_sheet(heap: Global, sheet: &Sheet) -> Result<Vec<Line>, AllocError>
    ensures { IfOk result (λ v. Ran (contents sheet.now) v.items) }
{
    let mut ends = Watch::new(Quartic::Ring13, 1, 0, display_ring(), 2, 0);
    let mut lines = Vec::new(heap);
    perform_all(heap, &mut ends, &sheet.fits, &mut lines)?;
    perform_all(heap, &mut ends, &sheet.keys, &mut lines)?;
    perform_all(heap, &mut ends, &sheet.sectors, &mut lines)?;
    Ok(lines)
}

/// Runs a sheet, given as its bytes: reads it, and lets a good one's entries make their calls, in their order, through a watch over the
/// two ends. Answers what the sheet prints: a line for each entry, or the one line of a bad sheet, which makes no call.
///
/// Memory for the entries, their lines and a copy of each sector comes from `heap`; an `AllocError` says that there is none, and only a
/// good sheet gets it.
pub fn run(heap: Global, sheet: &[u8]) -> Result<Printout, AllocError>
    ensures prints { IfOk result (λ p. Commissions (sheet_of sheet.now) (lines_of p)) }
    ensures memory { IfErr result (λ _. IsOk (sheet_of sheet.now)) }
{
    match read_sheet(heap, sheet) {
        Ok(entries) => Ok(Printout::Each(perform_sheet(heap, &entries)?)),
        Err(ReadError::Bad(fault)) => Ok(Printout::One(Line::Bad(fault))),
        Err(ReadError::NoMemory) => Err(AllocError),
    }
}
