// A box through a fitted tower.
ghost use Rattle.std.specs.Prelude.{◌≡◌};
ghost use Rattle.boxes.specs.Boxes.{inverse_mod};
ghost use Rattle.towers.specs.Boxed.{Boxed};

use crate::pair::Pair;
use crate::trail::trail_of;
use boxes::sbox::Sbox;
use rings::Ring;

// A box of x by a pair for the box's octic.
pub fn box_byte<B: Sbox, R: Ring>(ring: &R, pair: &Pair, x: u8) -> u8
    ensures { Boxed B.OCTIC B.before B.after (λ y. B.after (inverse_mod B.OCTIC (B.before y))) R.Ring.WIDTH (R.Ring.mul ring.now) pair.now x result }
{
    let mapped = B::before(x);
    let trail = trail_of(ring, pair, mapped);
    B::after(trail.byte)
}
