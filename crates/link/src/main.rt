// Two ends of a link at work, one over ring 13 and the other over the display's ring: prints each call with its answer.
#![tactic(auto)]

mod lines;

use lines::Link;
use rings::pairing::Pairing;
use rings::poly::{Four, Quartic};
use std::io;
use watch::side::Side;
use watch::two::Watch;

const KEY_A: u128 = 0x2b7e151628aed2a6abf7158809cf4f3c;

const KEY_S: u128 = 0x0123456789abcdeffedcba9876543210;

// Both ends are fitted and keyed alike, and a sector goes each way.
fn commission(link: &mut Link) -> io::Result<()> {
    link.fit(Side::First, 0x11b)?;
    link.fit(Side::Second, 0x11b)?;
    link.key(Side::First, 'A', &KEY_A.to_be_bytes())?;
    link.key(Side::Second, 'A', &KEY_A.to_be_bytes())?;
    link.sector(Side::First, b"bearing 0112, range 3.4 nm")?;
    link.sector(Side::Second, b"gain 7")?;
    link.tell(Side::First)?;
    link.tell(Side::Second)
}

// One end is refitted with the picture up: it has no key until it is rekeyed, and the other keeps its own.
fn refit(link: &mut Link) -> io::Result<()> {
    link.fit(Side::First, 0x1f5)?;
    link.sector(Side::First, b"no key")?;
    link.key(Side::First, 'A', &KEY_A.to_be_bytes())?;
    link.key(Side::First, 'S', &KEY_S.to_be_bytes())?;
    link.sector(Side::First, b"another cipher")?;
    link.fit(Side::Second, 0x1f5)?;
    link.key(Side::Second, 'S', &KEY_S.to_be_bytes())?;
    link.sector(Side::First, b"bearing 0225, range 12 nm")?;
    link.tell(Side::Second)
}

// What is refused, and what a wipe leaves.
fn wipe(link: &mut Link) -> io::Result<()> {
    link.fit(Side::First, 0x100)?;
    link.fit(Side::First, 0x200)?;
    link.key(Side::First, 'B', &KEY_S.to_be_bytes())?;
    link.key(Side::First, 'S', b"too short")?;
    link.wipe(Side::Second)?;
    link.sector(Side::First, b"the display was wiped")?;
    link.key(Side::Second, 'S', &KEY_S.to_be_bytes())?;
    link.sector(Side::Second, b"")?;
    link.sector(Side::Second, b"numbers go on")
}

fn main(rt: HostRuntime) -> io::Result<()> {
    let mut link = Link {
        rt: &rt,
        ends: Watch::new(Quartic::Ring13, 1, 0, Pairing::new(Four, 2), 2, 0),
    };
    commission(&mut link)?;
    refit(&mut link)?;
    wipe(&mut link)
}
