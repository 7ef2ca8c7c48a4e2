// What a sheet prints.
ghost use Rattle.std.specs.Prelude.{Some, flat_map};
ghost use Rattle.runs.specs.Lines.{lines_of, with_newline};

use crate::line::Line;
use std::fmt;

/// The lines that a sheet prints. One line takes no memory, so that a bad sheet gets its line whatever memory there is.
#[derive(Drop)]
pub enum Printout {
    /// The line of a bad sheet.
    One(Line),
    /// A line for each entry of a good sheet, in their order.
    Each(Vec<Line>),
}

/// Each line, ended by a newline.
impl fmt::Display for Printout {
    ghost output = { λ p. Some (flat_map with_newline (lines_of p)) };

    fn fmt<W: fmt::Write>(&self, f: &mut fmt::Formatter<W>) -> fmt::Result {
        match self {
            Printout::One(line) => writeln!(f, "{line}"),
            Printout::Each(lines) => {
                for line in lines {
                    writeln!(f, "{line}")?;
                }
                Ok(())
            }
        }
    }
}
