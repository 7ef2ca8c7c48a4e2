// The display's ring, and the pairs that a fit keeps over it.
#![tactic(auto)]

ghost use Rattle.std.specs.Prelude.{◌≡◌};
ghost use Rattle.display_ring.specs.Display.{four_mul, display_mul, pair_11b, pair_1f5};
ghost use Rattle.towers.specs.Keeps.{Keeps};

use rings::pairing::Pairing;
use rings::poly::Four;
use towers::pair::Pair;

// Two pairs, and below two functions with a fact each that the prover computes: a function over the octic would hold both all the
// same, and answer for octics that it has no pair for.

// The pair for the octic 11B.
const PAIR_11B: Pair = Pair {
    constant: 14,
    ones: 51,
    columns: [0x01, 0xbc, 0x5c, 0xb0, 0xa2, 0xba, 0x02, 0x63],
    reverse: [0x01, 0x40, 0x62, 0x68, 0x58, 0x97, 0x56, 0xc7],
};

// The pair for the octic 1F5.
const PAIR_1F5: Pair = Pair {
    constant: 11,
    ones: 49,
    columns: [0x01, 0x5c, 0x0c, 0x7a, 0x98, 0xac, 0x81, 0x04],
    reverse: [0x01, 0xef, 0x80, 0x84, 0xd5, 0x65, 0xd3, 0x41],
};

// The pairing over the field of four with constant 2.
pub fn display_ring() -> Pairing<Four>
    ensures { four_mul result.constant ≡ display_mul }
{
    Pairing::new(Four, 2)
}

// The first constant is what a fit to 11B keeps.
fn kept_11b()
    ensures { Keeps display_mul 0x11b pair_11b }
{}

// The second constant is what a fit to 1F5 keeps.
fn kept_1f5()
    ensures { Keeps display_mul 0x1f5 pair_1f5 }
{}

// What a fit of the display's ring to 11B keeps.
pub fn pair_11b() -> Pair
    ensures { Keeps display_mul 0x11b result }
{
    kept_11b();
    PAIR_11B
}

// What a fit of the display's ring to 1F5 keeps.
pub fn pair_1f5() -> Pair
    ensures { Keeps display_mul 0x1f5 result }
{
    kept_1f5();
    PAIR_1F5
}
