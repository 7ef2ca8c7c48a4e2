// Reads a commissioning sheet from standard input, runs it at two ends, and prints its lines.
#![tactic(auto)]

use runs::run::run;
use std::io::Read;

// One byte more than a sheet may have shows that it is too long.
const LIMIT: u64 = 16_385;

fn main(rt: HostRuntime) -> anyhow::Result<()> {
    let mut sheet = Vec::new(rt.alloc());
    rt.stdin().take(LIMIT).read_to_end(&mut sheet)?;
    print!(rt; "{}", run(rt.alloc(), &sheet)?)?;
    Ok(())
}
