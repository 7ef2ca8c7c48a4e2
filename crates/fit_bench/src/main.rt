// Times the fit: every accepted octic over four rings, many times over. The mean goes to standard error.
#![tactic(auto)]

use rings::Ring;
use rings::pairing::Pairing;
use rings::poly::{Four, Quartic};
use rings::powers::Powers13;
use std::io;
use std::time::Instant;

const ROUNDS: usize = 20;

// How many octics are accepted over a ring.
fn count_fits<R: Ring>(ring: &R) -> usize {
    (256..512u16)
        .filter(|octic| towers::fit(ring, *octic).is_ok())
        .count()
}

// How many over the four rings.
fn count_round() -> usize {
    [
        count_fits(&Quartic::Ring13),
        count_fits(&Quartic::Ring1F),
        count_fits(&Powers13),
        count_fits(&Pairing::new(Four, 2)),
    ]
    .iter()
    .fold(0, |sum, count| sum.saturating_add(*count))
}

fn main(rt: HostRuntime) -> io::Result<()> {
    let start = Instant::now(&rt)?;
    let fits = (0..ROUNDS).fold(0usize, |sum, _| sum.saturating_add(count_round()));
    let micros = start.elapsed(&rt)?.as_micros();
    eprintln!(rt; "{micros} us for {fits} fits")?;
    println!(rt; "{fits} fits")
}
