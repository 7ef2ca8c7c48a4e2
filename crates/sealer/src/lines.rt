// Seals the sector of a request, and prints what came of it.
use crate::request::{LineError, Part, Request, read};
use boxes::Substitute;
use boxes::direct::Direct;
use boxes::sbox::{BoxA, BoxS};
use ciphers::counter::{counter_block, work_sector};
use ciphers::keys::{Cipher, Schedule};
use std::io;
use words::shown::Digits;

// A line for each block of the sector: its counter block and its pad.
fn print_pads<B: Substitute>(
    rt: &HostRuntime,
    boxes: &B,
    keys: &Schedule,
    request: &Request,
) -> io::Result<()> {
    for (index, _) in (0..=u16::MAX).zip(request.sector.chunks(16)) {
        let counter = counter_block(request.name, request.number, index);
        let pad = keys.encrypt(boxes, counter);
        println!(rt;
            "{:032X} {:032X}",
            u128::from_be_bytes(counter),
            u128::from_be_bytes(pad)
        )?;
    }
    Ok(())
}

// Prints the counter blocks with their pads, and the sealed bytes.
fn seal<B: Substitute>(rt: &HostRuntime, boxes: &B, mut request: Request) -> Result<(), LineError> {
    let mut work = [0; 176];
    let keys = Schedule::new(boxes, request.cipher, &request.key, &mut work).map_err(
        |_| Part::Key,
    )?;
    work_sector(
        boxes,
        &keys,
        request.name,
        request.number,
        &mut request.sector,
    )
    .map_err(|_| Part::Sector)?;
    print_pads(rt, boxes, &keys, &request)?;
    println!(rt; "sealed {}", Digits(&request.sector))?;
    Ok(())
}

// Seals the sector of a line.
pub(crate) fn print_sealed(rt: &HostRuntime, line: &[u8]) -> Result<(), LineError> {
    let request = read(rt.alloc(), line)?;
    match request.cipher {
        Cipher::Aes => seal(rt, &Direct(BoxA), request),
        Cipher::Sm4 => seal(rt, &Direct(BoxS), request),
    }
}
