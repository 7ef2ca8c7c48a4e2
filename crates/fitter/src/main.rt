// For the yard: reads rings and octics, and lays out the pair that the fit keeps for each.
#![tactic(auto)]

mod entry;
mod lines;

use std::io;
use std::io::Read;

fn main(rt: HostRuntime) -> io::Result<()> {
    let mut text = Vec::new(rt.alloc());
    rt.stdin().read_to_end(&mut text)?;
    lines::print_all(&rt, &text)
}
