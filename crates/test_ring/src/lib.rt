// A ring for tests alone: the field of sixteen codes in a basis that no other kind of ring has.
#![tactic(auto)]

ghost use Rattle.std.specs.Prelude.{◌≡◌, ℕ, ◌<◌};
ghost use Rattle.test_ring.specs.Exchange.{exchange, exchanged_mul};
ghost use Rattle.test_ring.specs.Exchanging.{exchanged_laws};
ghost use Rattle.std.proofs.Common.{rules};

use rings::Ring;
use rings::powers::Powers13;

// Each code with its bits 1 and 3 exchanged: the table that the specification has.
const CODES: [u8; 16] = [0, 1, 8, 9, 4, 5, 12, 13, 2, 3, 10, 11, 6, 7, 14, 15];

fn exchange_bits(a: u8) -> u8
    requires { a < 16 }
    ensures { (result ≡ exchange a) × (result < 16) }
{
    CODES[a as usize]
}

// The product of two codes below 16.
fn by_ring_13(a: u8, b: u8) -> u8
    requires left { a < 16 }
    requires right { b < 16 }
    ensures { result ≡ exchanged_mul a b }
{
    let in_13 = Powers13.product(exchange_bits(a), exchange_bits(b));
    exchange_bits(in_13)
}

// Code 2 stands for the cube of Z, code 4 for its square and code 8 for Z, where Z is code 2 of ring 13.
#[derive(Clone, Copy)]
pub struct Exchanged;

impl Ring for Exchanged {
    const WIDTH: u32 = 4;

    ghost WIDTH = { 4 };

    ghost mul = { λ _. exchanged_mul };

    ghost narrow = { Prim.search rules };

    ghost laws = { λ r. exchanged_laws };

    fn product(&self, a: u8, b: u8) -> u8 {
        by_ring_13(a % 16, b % 16)
    }
}
