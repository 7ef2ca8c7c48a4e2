// Reads bytes as words of two hexadecimal digits, and prints the way of each through the tower that the fit keeps over ring 13.
#![tactic(auto)]

mod lines;
mod steps;

use rings::poly::Quartic;
use std::io;
use std::io::Read;
use towers::pair::Pair;

fn report(rt: &HostRuntime, pair: &Pair) -> io::Result<()> {
    let mut text = Vec::new(rt.alloc());
    rt.stdin().read_to_end(&mut text)?;
    println!(rt; "{}", lines::print_all(rt, pair, &text)?)
}

fn main(rt: HostRuntime) -> io::Result<()> {
    match towers::fit(&Quartic::Ring13, 0x11b) {
        Ok(pair) => report(&rt, &pair),
        Err(refusal) => println!(rt; "refused: {refusal}"),
    }
}
