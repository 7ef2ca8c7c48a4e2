// The block of SM4's second example: the first example's, encrypted a million times.
#![tactic(auto)]

ghost use Rattle.std.specs.Prelude.{◌≡◌};
ghost use Rattle.boxes.specs.Boxes.{box_s};
ghost use Rattle.sm4_million.specs.Stored.{stored_s, iterated};
ghost use Rattle.ciphers.specs.Keys.{cipher_of};

use boxes::Substitute;
use boxes::direct::Direct;
use boxes::sbox::BoxS;
use ciphers::keys::{Cipher, Schedule};
use std::{array, io};

// Box S, worked out once for every byte.
#[derive(Drop)]
struct Stored {
    bytes: [u8; 256],
    ghost right: { bytes ≡ stored_s },
}

fn every_byte() -> [u8; 256]
    ensures { result ≡ stored_s }
{
    array::from_fn(|i| Direct(BoxS).substitute(i as u8))
}

impl Stored {
    fn new() -> Stored {
        Stored {
            bytes: every_byte(),
        }
    }
}

impl Substitute for Stored {
    ghost boxed = { λ _. box_s };

    fn substitute(&self, x: u8) -> u8 {
        self.bytes[x as usize]
    }
}

// A block that is encrypted again and again. A loop: of a `fold` it stays open that each call leaves the closure as it was. The name
// `next` is needed too: a call's result that is laid in `last` itself gets no proof.
fn repeated(boxes: &Stored, keys: &Schedule, block: [u8; 16], times: u32) -> [u8; 16]
    ensures { result ≡ iterated (cipher_of box_s keys.now) times block }
{
    let mut last = block;
    for _ in 0..times {
        let next = keys.encrypt(boxes, last);
        last = next;
    }
    last
}

fn main(rt: HostRuntime) -> io::Result<()> {
    let key: [u8; 16] = 0x0123456789abcdeffedcba9876543210u128.to_be_bytes();
    let boxes = Stored::new();
    let mut work = [0u8; 176];
    match Schedule::new(&boxes, Cipher::Sm4, &key, &mut work) {
        Ok(keys) => {
            let last = repeated(&boxes, &keys, key, 1_000_000);
            println!(rt; "{:032X}", u128::from_be_bytes(last))
        }
        Err(e) => println!(rt; "{e}"),
    }
}
