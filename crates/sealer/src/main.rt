// Seals sectors: each line of the input has a cipher's letter, a key, a name, a number and a sector, the last four in hexadecimal.
// Prints each counter block with its pad, and the sealed bytes; a bad line is named with what is bad in it.
#![tactic(auto)]

mod lines;
mod request;

use request::LineError;
use std::io::{BufRead, BufReader};

fn main(rt: HostRuntime) -> anyhow::Result<()> {
    let input = BufReader::new(rt.alloc(), rt.stdin())?;
    for (place, line) in (1..=u64::MAX).zip(input.split(rt.alloc(), b'\n')) {
        let line = line?;
        match lines::print_sealed(&rt, &line) {
            Ok(()) => {}
            Err(LineError::Bad(part)) => println!(rt; "line {place}: bad {part}")?,
            Err(LineError::Other(error)) => return Err(error),
        }
    }
    Ok(())
}
