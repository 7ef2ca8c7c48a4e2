// The lines of the report.
use crate::entry::{Choice, Published, fit_of, published_for, ring_named};
use refusals::Numbered;
use std::{fmt, io};
use towers::pair::Pair;
use words::shown::{Misread, Shown};
use words::{Word, hex_triple};

// A row of a matrix of eight columns, by its number: 1 for an entry 1, and a dot for an entry 0.
#[derive(Clone, Copy)]
struct Row<'a>(&'a [u8; 8], u32);

impl fmt::Display for Row<'_> {
    fn fmt<W: fmt::Write>(&self, f: &mut fmt::Formatter<W>) -> fmt::Result {
        let Row(columns, row) = *self;
        for column in columns {
            let entry = (*column >> (row % 8)) % 2;
            f.write_str(if entry == 1 { "1" } else { "." })?;
        }
        Ok(())
    }
}

// Both matrices side by side, M to the left.
fn print_matrices(rt: &impl Print, pair: &Pair) -> io::Result<()> {
    for row in 0..8 {
        println!(rt; "{}  {}", Row(&pair.columns, row), Row(&pair.reverse, row))?;
    }
    Ok(())
}

// How the published pair compares with the one that is kept.
fn print_comparison(rt: &impl Print, kept: &Pair, known: &Published) -> io::Result<()> {
    let constant = known.constant;
    let ones = known.ones;
    if (constant, known.columns) == (kept.constant, kept.columns) {
        return println!(rt; "the published pair is this one");
    }
    if ones == kept.ones {
        return println!(rt; "the published pair, c {constant}, has as many ones and loses the tie");
    }
    println!(rt; "the published pair, c {constant}, has {ones} ones")
}

fn print_fit(rt: &impl Print, ring: Word, choice: Choice, octic: u16) -> io::Result<()> {
    let name = Shown(ring.part);
    match fit_of(choice, octic) {
        Ok(pair) => {
            println!(rt;
                "{name} {octic:03X}: c {}, {} ones",
                pair.constant, pair.ones
            )?;
            print_matrices(rt, &pair)?;
            match published_for(choice, octic) {
                Some(known) => print_comparison(rt, &pair, &known),
                None => Ok(()),
            }
        }
        Err(refusal) => println!(rt; "{name} {octic:03X}: {}", Numbered(refusal)),
    }
}

fn print_entry(rt: &impl Print, ring: Word, octic: Word) -> io::Result<()> {
    let Some(choice) = ring_named(ring.part) else {
        let what = "ring: 13, 19, 1F, 13P, 4:2 or 4:3";
        return println!(rt; "{}", Misread { word: ring, what });
    };
    let Some(number) = hex_triple(octic.part) else {
        let what = "octic: three hexadecimal digits, letters as capitals";
        return println!(rt; "{}", Misread { word: octic, what });
    };
    print_fit(rt, ring, choice, number)
}

// A report for each pair of words.
pub(crate) fn print_all(rt: &impl Print, text: &[u8]) -> io::Result<()> {
    let mut reader = words::over(text);
    while let Some(ring) = reader.word() {
        match reader.word() {
            Some(octic) => print_entry(rt, ring, octic)?,
            None => {
                let what = "entry: a ring and an octic";
                println!(rt; "{}", Misread { word: ring, what })?;
            }
        }
    }
    Ok(())
}
