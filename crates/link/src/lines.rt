// Calls at two ends, each printed with its answer.
use ends::records::Told;
use ends::ticket::Ticket;
use refusals::Numbered;
use rings::pairing::Pairing;
use rings::poly::{Four, Quartic};
use std::{fmt, io};
use watch::side::Side;
use watch::two::Watch;
use words::shown::Digits;

// An end as the report names it.
#[derive(Clone, Copy)]
struct Name(Side);

impl fmt::Display for Name {
    fn fmt<W: fmt::Write>(&self, f: &mut fmt::Formatter<W>) -> fmt::Result {
        f.write_str(match self.0 {
            Side::First => "first",
            Side::Second => "second",
        })
    }
}

// Two ends of a link, and where the report goes.
#[derive(Drop)]
pub struct Link<'a> {
    pub rt: &'a HostRuntime,
    pub ends: Watch<Quartic, Pairing<Four>>,
}

impl Link<'_> {
    pub(crate) fn fit(&mut self, side: Side, octic: u16) -> io::Result<()> {
        let name = Name(side);
        match self.ends.fit(side, octic) {
            Ok(pair) => println!(self.rt;
                "{name} fit {octic:03X}: c {}, {} ones",
                pair.c, pair.ones
            ),
            Err(refusal) => println!(self.rt; "{name} fit {octic:03X}: {}", Numbered(refusal)),
        }
    }

    pub(crate) fn key(&mut self, side: Side, letter: char, key: &[u8]) -> io::Result<()> {
        let name = Name(side);
        match self.ends.key(side, letter, key, &mut [0; 176]) {
            Ok(()) => println!(self.rt; "{name} key {letter}: accepted"),
            Err(refusal) => println!(self.rt; "{name} key {letter}: {}", Numbered(refusal)),
        }
    }

    pub(crate) fn wipe(&mut self, side: Side) -> io::Result<()> {
        self.ends.wipe(side);
        println!(self.rt; "{} wipe", Name(side))
    }

    pub(crate) fn tell(&self, side: Side) -> io::Result<()> {
        let name = Name(side);
        let mut told = Told::default();
        match self.ends.tell(side, &mut told) {
            Ok(()) => {
                let columns = Digits(&told.columns);
                println!(self.rt;
                    "{name} tell: c {}, {} ones, columns {columns}",
                    told.c, told.ones
                )
            }
            Err(refusal) => println!(self.rt; "{name} tell: {}", Numbered(refusal)),
        }
    }

    // Opens what was sealed, at the other end.
    fn open(&self, side: Side, name: u16, number: u64, bytes: &mut [u8]) -> io::Result<()> {
        let end = Name(side);
        match self.ends.open(side, name, number, bytes) {
            Ok(()) => println!(self.rt; "{end} open {name} {number}: {}", Digits(bytes)),
            Err(refusal) => println!(self.rt; "{end} open {name} {number}: {}", Numbered(refusal)),
        }
    }

    fn seal(&self, side: Side, ticket: Ticket, bytes: &mut [u8]) -> io::Result<()> {
        let end = Name(side);
        let name = ticket.name();
        let number = ticket.number();
        match self.ends.seal(side, ticket, bytes) {
            Ok(()) => {
                println!(self.rt; "{end} seal {name} {number}: {}", Digits(bytes))?;
                self.open(side.other(), name, number, bytes)
            }
            Err(refusal) => println!(self.rt; "{end} seal {name} {number}: {}", Numbered(refusal)),
        }
    }

    // A sector: drawn and sealed at one end, and opened at the other.
    pub(crate) fn sector(&mut self, side: Side, text: &[u8]) -> io::Result<()> {
        let mut bytes = text.to_vec(self.rt.alloc())?;
        match self.ends.draw(side) {
            Ok(ticket) => self.seal(side, ticket, &mut bytes),
            Err(refusal) => println!(self.rt; "{} draw: {}", Name(side), Numbered(refusal)),
        }
    }
}
