// The way of one byte through the tower over ring 13.
ghost use Rattle.trail.specs.Steps.{Way};

use boxes::sbox::BoxA;
use rings::Ring;
use rings::pairing::Lent;
use rings::poly::Quartic;
use towers::boxed::box_byte;
use towers::pair::Pair;
use towers::trail::{Trail, trail_of};

// The byte, its trail, the norm of its tower code, the norm's inverse, and box A's byte.
#[derive(Clone, Copy)]
pub struct Steps {
    pub byte: u8,
    pub trail: Trail,
    pub norm: u8,
    pub norm_inverse: Option<u8>,
    pub boxed: u8,
}

pub(crate) fn follow(pair: &Pair, byte: u8) -> Steps
    ensures { Way pair.now byte result }
{
    let ring = Quartic::Ring13;
    let trail = trail_of(&ring, pair, byte);
    let norm = Lent::new(&ring, pair.constant).norm(trail.code);
    Steps {
        byte,
        trail,
        norm,
        norm_inverse: ring.inverse(norm),
        boxed: box_byte::<BoxA, Quartic>(&ring, pair, byte),
    }
}
