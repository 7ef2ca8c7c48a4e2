// The way of a byte through a fitted tower. Ring and pair come apart, since any pair may be walked over any ring.
ghost use Rattle.std.specs.Prelude.{◌≡◌};
ghost use Rattle.towers.specs.Matrices.{apply};
ghost use Rattle.towers.specs.Trails.{TowerInverse, Trails, Through, Arrives};

use crate::matrix::combine;
use crate::pair::Pair;
use rings::Ring;
use rings::pairing::Lent;

// A byte's code in the tower, that code's inverse there, 0 where it has none, and the byte that the map makes of the inverse.
#[derive(Clone, Copy, PartialEq, Eq, Debug)]
pub struct Trail {
    pub code: u8,
    pub inverse: u8,
    pub byte: u8,
}

// The inverse of a code in the tower with a constant; by the trail's rule 0 where it has none, and 0 where the ring's width is not 4.
fn tower_inverse<R: Ring>(ring: &R, constant: u8, code: u8) -> u8
    ensures { TowerInverse R.Ring.WIDTH (R.Ring.mul ring.now) constant code result }
{
    if R::WIDTH != 4 {
        return 0;
    }
    Lent::new(ring, constant).inverse(code).unwrap_or(0)
}

// The rest of a byte's trail, from its code on.
fn go_on<R: Ring>(ring: &R, pair: &Pair, byte: u8, code: u8) -> Trail
    requires { code ≡ apply pair.now.reverse byte }
    ensures walks { Trails R.Ring.WIDTH (R.Ring.mul ring.now) pair.now byte result }
    ensures through { Through R.Ring.WIDTH (R.Ring.mul ring.now) pair.now byte result.byte }
    ensures arrives { Arrives R.Ring.WIDTH (R.Ring.mul ring.now) pair.now byte result.byte }
{
    let inverse = tower_inverse(ring, pair.constant, code);
    Trail {
        code,
        inverse,
        byte: combine(&pair.columns, inverse),
    }
}

// The trail of a byte by a pair: where the pair is lawful for the ring and an octic, its last byte is the inverse in the octic's
// ring.
pub fn trail_of<R: Ring>(ring: &R, pair: &Pair, byte: u8) -> Trail
    ensures walks { Trails R.Ring.WIDTH (R.Ring.mul ring.now) pair.now byte result }
    ensures through { Through R.Ring.WIDTH (R.Ring.mul ring.now) pair.now byte result.byte }
    ensures arrives { Arrives R.Ring.WIDTH (R.Ring.mul ring.now) pair.now byte result.byte }
{
    go_on(ring, pair, byte, combine(&pair.reverse, byte))
}
