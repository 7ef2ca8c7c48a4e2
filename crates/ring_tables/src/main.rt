// Prints the product tables and the inverses of rings of every kind.
#![tactic(auto)]

ghost use Rattle.std.specs.Prelude.{◌≡◌, ◌^◌, ◌≤◌, min};

use rings::Ring;
use rings::pairing::Pairing;
use rings::poly::{Four, Octic, Quartic};
use rings::powers::Powers13;
use std::ops::RangeInclusive;
use std::{array, fmt, io};

// A code by its digit, or by two if its ring is wide; a dash where there is none.
#[derive(Clone, Copy)]
struct Shown {
    code: Option<u8>,
    wide: bool,
}

impl fmt::Display for Shown {
    fn fmt<W: fmt::Write>(&self, f: &mut fmt::Formatter<W>) -> fmt::Result {
        match self.code {
            Some(code) if self.wide => write!(f, "{code:02X}"),
            Some(code) => write!(f, "{code:X}"),
            None => f.write_str("-"),
        }
    }
}

// Codes with a space between each two.
#[derive(Clone, Copy)]
struct Line<'a>(&'a [Shown]);

impl fmt::Display for Line<'_> {
    fn fmt<W: fmt::Write>(&self, f: &mut fmt::Formatter<W>) -> fmt::Result {
        let Some((first, rest)) = self.0.split_first() else {
            return Ok(());
        };
        write!(f, "{first}")?;
        for code in rest {
            write!(f, " {code}")?;
        }
        Ok(())
    }
}

// All codes of a ring.
fn codes<R: Ring>() -> RangeInclusive<u8> {
    0..=u8::MAX >> (8 - R::WIDTH)
}

// How many codes stand in a line: sixteen, or all of a ring with fewer. So a line is an array, and the program needs no memory.
fn in_line<R: Ring>() -> usize
    ensures count { result ≡ min (2 ^ R.Ring.WIDTH) 16 }
    ensures room { result ≤ 16 }
{
    (1usize << R::WIDTH).min(16)
}

// Three functions take the runtime and a ring; a struct of the two would be longer and say no more.
fn print_products<R: Ring>(rt: &impl Print, ring: &R) -> io::Result<()> {
    for a in codes::<R>() {
        let row: [Shown; 16] = array::from_fn(|b| Shown {
            code: Some(ring.product(a, b as u8)),
            wide: false,
        });
        println!(rt; "{}", Line(&row[..in_line::<R>()]))?;
    }
    Ok(())
}

fn print_inverses<R: Ring>(rt: &impl Print, ring: &R) -> io::Result<()> {
    let wide = R::WIDTH == 8;
    println!(rt; "inverses")?;
    for first in codes::<R>().step_by(16) {
        let line: [Shown; 16] = array::from_fn(|i| Shown {
            code: ring.inverse(first.wrapping_add(i as u8)),
            wide,
        });
        println!(rt; "{}", Line(&line[..in_line::<R>()]))?;
    }
    Ok(())
}

fn print_ring<R: Ring>(rt: &impl Print, name: &str, ring: &R) -> io::Result<()> {
    println!(rt; "ring {name}")?;
    if R::WIDTH <= 4 {
        print_products(rt, ring)?;
    }
    print_inverses(rt, ring)
}

fn print_octics(rt: &impl Print) -> io::Result<()> {
    for number in [0x11b, 0x1f5, 0x100, 0x1ff] {
        println!(rt; "ring {number:X}")?;
        print_inverses(rt, &Octic::new(number))?;
    }
    Ok(())
}

fn main(rt: HostRuntime) -> io::Result<()> {
    print_ring(&rt, "four", &Four)?;
    print_ring(&rt, "13", &Quartic::Ring13)?;
    print_ring(&rt, "13 by powers", &Powers13)?;
    print_ring(&rt, "19", &Quartic::Ring19)?;
    print_ring(&rt, "1F", &Quartic::Ring1F)?;
    print_ring(&rt, "four with 0", &Pairing::new(Four, 0))?;
    print_ring(&rt, "four with 1", &Pairing::new(Four, 1))?;
    print_ring(&rt, "four with 2", &Pairing::new(Four, 2))?;
    print_ring(&rt, "four with 3", &Pairing::new(Four, 3))?;
    print_ring(&rt, "13 with C", &Pairing::new(Quartic::Ring13, 12))?;
    print_ring(
        &rt,
        "four with 2 with 8",
        &Pairing::new(Pairing::new(Four, 2), 8),
    )?;
    print_octics(&rt)
}
