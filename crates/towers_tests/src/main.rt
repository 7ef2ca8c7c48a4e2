// Prints the fit of every number of 16 bits over fields of sixteen codes, what other rings are refused, and trails of all bytes.
#![tactic(auto)]

use boxes::sbox::{BoxA, BoxS, Sbox};
use refusals::Refusal;
use rings::Ring;
use rings::pairing::Pairing;
use rings::poly::{Four, Octic, Quartic};
use rings::powers::Powers13;
use std::io;
use test_ring::Exchanged;
use towers::boxed::box_byte;
use towers::fit;
use towers::pair::Pair;
use towers::trail::trail_of;
use words::shown::Spaced;

fn print_pair(rt: &impl Print, name: &str, octic: u16, pair: &Pair) -> io::Result<()> {
    println!(rt;
        "{name} {octic:03X} {} {}{}{}",
        pair.constant,
        pair.ones,
        Spaced(&pair.columns),
        Spaced(&pair.reverse)
    )
}

// Refusals are counted as they come, and not kept: the program needs no memory.
fn print_fits<R: Ring>(rt: &impl Print, name: &str, ring: &R) -> io::Result<()> {
    let kinds = [Refusal::NotField, Refusal::NotOctic, Refusal::Divisible];
    let mut counts = [0usize; 3];
    for octic in 0..=u16::MAX {
        match fit(ring, octic) {
            Ok(pair) => print_pair(rt, name, octic, &pair)?,
            Err(refusal) => {
                for (count, kind) in counts.iter_mut().zip(kinds) {
                    *count = count.saturating_add(usize::from(refusal == kind));
                }
            }
        }
    }
    let [first, second, third] = counts;
    println!(rt; "{name} refused: 1 {first}, 2 {second}, 3 {third}")
}

fn print_trails<B: Sbox, R: Ring>(rt: &impl Print, name: &str, ring: &R) -> io::Result<()> {
    let octic = B::OCTIC;
    let Ok(pair) = fit(ring, octic) else {
        return Ok(());
    };
    for x in 0..=255 {
        let trail = trail_of(ring, &pair, x);
        let boxed = box_byte::<B, R>(ring, &pair, x);
        println!(rt;
            "{name} {octic:03X} {x:02X}: {:02X} {:02X} {:02X}, box {boxed:02X}",
            trail.code, trail.inverse, trail.byte
        )?;
    }
    Ok(())
}

fn main(rt: HostRuntime) -> io::Result<()> {
    print_fits(&rt, "13", &Quartic::Ring13)?;
    print_fits(&rt, "13P", &Powers13)?;
    print_fits(&rt, "19", &Quartic::Ring19)?;
    print_fits(&rt, "1F", &Quartic::Ring1F)?;
    print_fits(&rt, "4:2", &Pairing::new(Four, 2))?;
    print_fits(&rt, "test", &Exchanged)?;
    print_fits(&rt, "4:0", &Pairing::new(Four, 0))?;
    print_fits(&rt, "4:1", &Pairing::new(Four, 1))?;
    print_fits(&rt, "4", &Four)?;
    print_fits(&rt, "11B", &Octic::new(0x11b))?;
    print_fits(&rt, "4:2:8", &Pairing::new(Pairing::new(Four, 2), 8))?;
    print_trails::<BoxA, _>(&rt, "13", &Quartic::Ring13)?;
    print_trails::<BoxS, _>(&rt, "13", &Quartic::Ring13)?;
    print_trails::<BoxA, _>(&rt, "4:2", &Pairing::new(Four, 2))?;
    print_trails::<BoxS, _>(&rt, "4:2", &Pairing::new(Four, 2))?;
    print_trails::<BoxA, _>(&rt, "test", &Exchanged)?;
    print_trails::<BoxS, _>(&rt, "test", &Exchanged)
}
