// Runs the calls of ends at their edges, and prints what they answer.
#![tactic(auto)]

use ends::end::End;
use ends::records::Told;
use ends::ticket::{Ticket, burn};
use refusals::Refusal;
use rings::Ring;
use rings::pairing::Pairing;
use rings::poly::{Four, Octic, Quartic};
use std::iter::successors;
use std::{fmt, io};
use words::shown::Spaced;

const KEY: [u8; 17] = [0, 1, 2, 3, 4, 5, 6, 7, 8, 9, 10, 11, 12, 13, 14, 15, 16];

// A cipher's letter, and the octic of its box.
#[derive(Clone, Copy)]
struct Kind {
    letter: char,
    octic: u16,
}

const A: Kind = Kind {
    letter: 'A',
    octic: 0x11b,
};

const S: Kind = Kind {
    letter: 'S',
    octic: 0x1f5,
};

// 0, or the number of the refusal.
#[derive(Clone, Copy)]
struct Code<T>(Result<T, Refusal>);

impl<T> fmt::Display for Code<T> {
    fn fmt<W: fmt::Write>(&self, f: &mut fmt::Formatter<W>) -> fmt::Result {
        match &self.0 {
            Ok(_) => f.write_str("0"),
            Err(refusal) => write!(f, "{}", refusal.number()),
        }
    }
}

// The hash FNV-1a.
fn digest(bytes: &[u8]) -> u64 {
    bytes.iter().fold(0xcbf29ce484222325, |hash: u64, b| {
        (hash ^ u64::from(*b)).wrapping_mul(0x100000001b3)
    })
}

// One byte more than an end seals.
const TOO_LONG: usize = 4097;

// A sector of up to so many bytes. It stands in an array: with a `Vec` the program could run out of memory.
#[derive(Clone, Copy)]
struct Sector {
    area: [u8; TOO_LONG],
    length: usize,
}

impl Sector {
    // All bytes are 0.
    fn zero(length: usize) -> Sector {
        Sector {
            area: [0; TOO_LONG],
            length,
        }
    }

    // The bytes 3, 10, 17 and so on. The cipher tests have the same; a crate for three lines is no plainer.
    fn plain(length: usize) -> Sector {
        let mut sector = Sector::zero(length);
        let values = successors(Some(3u8), |b| Some(b.wrapping_add(7)));
        for (b, value) in sector.area.iter_mut().zip(values) {
            *b = value;
        }
        sector
    }

    fn bytes(&mut self) -> &mut [u8] {
        &mut self.area[..self.length.min(TOO_LONG)]
    }
}

// An end at work, and where its answers go.
#[derive(Drop)]
struct Report<'a, R> {
    rt: &'a HostRuntime,
    end: End<R>,
}

impl<R: Ring> Report<'_, R> {
    fn trail(&self, x: u8) -> io::Result<()> {
        match self.end.trail(x) {
            Ok(t) => {
                println!(self.rt; "W {x:02X} {:02X} {:02X} {:02X}", t.code, t.inverse, t.byte)
            }
            Err(refusal) => println!(self.rt; "W {x:02X} {}", refusal.number()),
        }
    }

    fn fitted(&self) -> io::Result<()> {
        let mut told = Told::default();
        let _ = self.end.tell(&mut told);
        println!(self.rt; "T {} {}{}", told.c, told.ones, Spaced(&told.columns))?;
        for byte in [0x00, 0x01, 0x53, 0xff] {
            self.trail(byte)?;
        }
        Ok(())
    }

    fn fit(&mut self, label: &str, octic: u16) -> io::Result<()> {
        match self.end.fit(octic) {
            Ok(pair) => {
                println!(self.rt; "F {label} {octic:03X} 0 {} {}", pair.c, pair.ones)?;
                self.fitted()
            }
            Err(refusal) => println!(self.rt; "F {label} {octic:03X} {}", refusal.number()),
        }
    }

    fn byte(&self, letter: char, byte: u8) -> io::Result<()> {
        let boxed = self.end.box_byte(letter, byte).unwrap_or(0);
        println!(self.rt; "X {letter} {byte:02X} {boxed:02X}")
    }

    fn draw(&mut self) -> io::Result<()> {
        match self.end.draw() {
            Ok(t) => {
                let name = t.name();
                let number = burn(t);
                println!(self.rt; "D 0 {name} {number}")
            }
            Err(refusal) => println!(self.rt; "D {}", refusal.number()),
        }
    }

    fn open(&self, label: &str, number: u64, mut sector: Sector) -> io::Result<()> {
        let code = Code(self.end.open(0xc0de, number, sector.bytes()));
        println!(self.rt; "O {label} {code} {:016X}", digest(sector.bytes()))
    }
}

fn print_fits<R: Ring + Drop>(
    rt: &HostRuntime,
    label: &str,
    ring: R,
    octics: &[u16],
) -> io::Result<()> {
    let end = End::new(ring, 1, 0);
    let mut report = Report { rt, end };
    for octic in octics {
        report.fit(label, *octic)?;
    }
    Ok(())
}

fn fits(rt: &HostRuntime) -> io::Result<()> {
    let octics = [0x0ff, 0x100, 0x11b, 0x11d, 0x1f5, 0x1ff, 0x200];
    print_fits(rt, "13", Quartic::Ring13, &octics)?;
    print_fits(rt, "19", Quartic::Ring19, &octics)?;
    print_fits(rt, "1F", Quartic::Ring1F, &octics)?;
    print_fits(rt, "F4", Pairing::new(Four, 2), &octics)?;
    // These two are no fields of width 4.
    print_fits(rt, "F4 alone", Four, &[0x0ff, 0x100, 0x11b])?;
    print_fits(rt, "octic", Octic::new(0x11b), &[0x0ff, 0x100, 0x11b])
}

// An end over ring 13 that is fitted, unless the number is no octic and its fit is refused.
fn fitted(octic: u16) -> End<Quartic> {
    let mut end = End::new(Quartic::Ring13, 1, 0);
    let _ = end.fit(octic);
    end
}

fn print_key(
    rt: &HostRuntime,
    octic: u16,
    letter: char,
    key: &[u8],
    room: usize,
) -> io::Result<()> {
    // An array, for the reason that a sector is one.
    let mut area = [0xa5u8; 300];
    let work = &mut area[..room.min(300)];
    let code = Code(fitted(octic).key(letter, key, work));
    let left = work
        .iter()
        .fold(0u32, |sum, b| sum.wrapping_add(u32::from(*b)));
    println!(rt; "K {octic:03X} {letter} {} {room} {code} {left}", key.len())
}

fn print_keys(rt: &HostRuntime, octic: u16, letter: char) -> io::Result<()> {
    let code = Code(fitted(octic).box_byte(letter, 0));
    println!(rt; "B {octic:03X} {letter} {code}")?;
    for key in [&KEY[..15], &KEY[..16], &KEY[..17]] {
        for room in [0, 175, 176, 300] {
            print_key(rt, octic, letter, key, room)?;
        }
    }
    Ok(())
}

fn keys(rt: &HostRuntime) -> io::Result<()> {
    // The fit for 0 is refused.
    for octic in [0, 0x11b, 0x1f5] {
        for letter in ['A', 'S', 'B'] {
            print_keys(rt, octic, letter)?;
        }
    }
    Ok(())
}

fn boxes(rt: &HostRuntime) -> io::Result<()> {
    for Kind { letter, octic } in [A, S] {
        let end = fitted(octic);
        let report = Report { rt, end };
        for byte in [0x00, 0x01, 0x53, 0xff] {
            report.byte(letter, byte)?;
        }
    }
    Ok(())
}

fn draws(rt: &HostRuntime) -> io::Result<()> {
    for first in [u64::MAX - 1, u64::MAX] {
        let end = End::new(Quartic::Ring13, 1, first);
        let mut report = Report { rt, end };
        report.draw()?;
        report.draw()?;
    }
    Ok(())
}

// A keyed end under a name, over any ring.
fn keyed<R: Ring>(ring: R, name: u16, first: u64, kind: Kind) -> End<R> {
    let mut end = End::new(ring, name, first);
    let _ = end.fit(kind.octic);
    let _ = end.key(kind.letter, &KEY[..16], &mut [0; 176]);
    end
}

// Seals with a ticket, if there is one.
fn sealed<R: Ring>(
    end: &End<R>,
    ticket: Result<Ticket, Refusal>,
    bytes: &mut [u8],
) -> Result<(), Refusal> {
    end.seal(ticket?, bytes)
}

// An end that is keyed or wiped, and a ticket of its own or of another.
fn print_refused_seal(rt: &HostRuntime, has_key: bool, own: bool, length: usize) -> io::Result<()> {
    let mut end = keyed(Quartic::Ring13, 1, 0, A);
    let mut other = End::new(Quartic::Ring13, 2, 0);
    if !has_key {
        end.wipe();
    }
    let ticket = if own { end.draw() } else { other.draw() };
    let code = Code(sealed(&end, ticket, Sector::zero(length).bytes()));
    println!(rt; "R {} {} {length} {code}", u8::from(has_key), u8::from(own))
}

fn print_refused_open(rt: &HostRuntime, has_key: bool, length: usize) -> io::Result<()> {
    let mut end = keyed(Quartic::Ring13, 1, 0, A);
    if !has_key {
        end.wipe();
    }
    let code = Code(end.open(9, 7, Sector::zero(length).bytes()));
    println!(rt; "Q {} {length} {code}", u8::from(has_key))
}

fn refusals_in_order(rt: &HostRuntime) -> io::Result<()> {
    for has_key in [false, true] {
        for own in [false, true] {
            for length in [0, 1, TOO_LONG] {
                print_refused_seal(rt, has_key, own, length)?;
            }
        }
        for length in [0, 1, TOO_LONG] {
            print_refused_open(rt, has_key, length)?;
        }
    }
    Ok(())
}

// Opens a copy of what was sealed at an end over each of four rings.
fn print_opens(rt: &HostRuntime, kind: Kind, number: u64, sector: Sector) -> io::Result<()> {
    let end = keyed(Quartic::Ring13, 4, 0, kind);
    Report { rt, end }.open("13", number, sector)?;
    let end = keyed(Quartic::Ring19, 1, 0, kind);
    Report { rt, end }.open("19", number, sector)?;
    let end = keyed(Quartic::Ring1F, 2, 0, kind);
    Report { rt, end }.open("1F", number, sector)?;
    let end = keyed(Pairing::new(Four, 2), 3, 0, kind);
    Report { rt, end }.open("F4", number, sector)
}

// Seals a sector at an end over a ring, and opens it over each of the four.
fn print_sector<R: Ring + Drop>(
    rt: &HostRuntime,
    ring: R,
    kind: Kind,
    number: u64,
    length: usize,
) -> io::Result<()> {
    let mut end = keyed(ring, 0xc0de, number, kind);
    let mut sector = Sector::plain(length);
    let ticket = end.draw();
    let code = Code(sealed(&end, ticket, sector.bytes()));
    println!(rt;
        "S {} {length} {code} {number} {:016X}",
        kind.letter,
        digest(sector.bytes())
    )?;
    print_opens(rt, kind, number, sector)
}

fn sectors(rt: &HostRuntime, kind: Kind) -> io::Result<()> {
    let numbers = 0xfedcba9876543210..=u64::MAX;
    for (number, length) in numbers.zip([0, 1, 15, 16, 17, 4096, TOO_LONG]) {
        print_sector(rt, Quartic::Ring13, kind, number, length)?;
    }
    print_sector(rt, Quartic::Ring19, kind, 7, 33)?;
    print_sector(rt, Quartic::Ring1F, kind, 8, 33)?;
    print_sector(rt, Pairing::new(Four, 2), kind, 9, 33)
}

// A ticket's number, if one was drawn, and what the seal of one byte with it answered, or the draw.
// A refused draw has no number; the values worked out apart have 0 for it.
#[derive(Clone, Copy)]
struct Outcome {
    number: Option<u64>,
    answer: Result<(), Refusal>,
}

impl fmt::Display for Outcome {
    fn fmt<W: fmt::Write>(&self, f: &mut fmt::Formatter<W>) -> fmt::Result {
        write!(f, "{} {}", self.number.unwrap_or(0), Code(self.answer))
    }
}

// Draws a ticket and seals one byte with it.
fn drawn_and_sealed(end: &mut End<Quartic>) -> Outcome {
    match end.draw() {
        Ok(ticket) => Outcome {
            number: Some(ticket.number()),
            answer: end.seal(ticket, &mut [65]),
        },
        Err(refusal) => Outcome {
            number: None,
            answer: Err(refusal),
        },
    }
}

// A wipe and a fit forget the key, and no call but draw moves the number.
fn forgets(rt: &impl Print) -> io::Result<()> {
    let mut end = End::new(Quartic::Ring13, 1, 0);
    let fit = Code(end.fit(0x11b));
    let key = Code(end.key('A', &KEY[..16], &mut [0; 176]));
    let first = drawn_and_sealed(&mut end);
    end.wipe();
    let second = drawn_and_sealed(&mut end);
    let again = Code(end.key('A', &KEY[..16], &mut [0; 176]));
    let refit = Code(end.fit(0x11b));
    let third = drawn_and_sealed(&mut end);
    println!(rt; "Z {fit} {key} {first} {second} {again} {refit} {third}")
}

fn main(rt: HostRuntime) -> io::Result<()> {
    fits(&rt)?;
    keys(&rt)?;
    boxes(&rt)?;
    draws(&rt)?;
    refusals_in_order(&rt)?;
    sectors(&rt, A)?;
    sectors(&rt, S)?;
    forgets(&rt)
}
