// Lawful pairs of a tower field and an octic, and the fit that keeps the least of them.
#![tactic(auto)]

ghost use Rattle.std.specs.Prelude.{◌≡◌};
ghost use Rattle.rings.specs.Laws.{Field};
ghost use Rattle.towers.specs.Fitted.{Sixteen, Fitted};
ghost use Rattle.towers.specs.Tests.{Whether};

use octics::check_octic;
use pair::Pair;
use refusals::Refusal;
use rings::Ring;

pub mod boxed;
mod matrix;
pub mod pair;
mod search;
pub mod trail;

// Whether every code but 0 has an inverse. (A loop: after an `all` over the codes the goals about them stay open.)
fn all_invertible<R: Ring>(ring: &R) -> bool
    requires { R.Ring.WIDTH ≡ 4 }
    ensures { Whether (Field R.Ring.WIDTH 1 (R.Ring.mul ring.now)) result }
{
    for a in 1..16 {
        if ring.inverse(a).is_none() {
            return false;
        }
    }
    true
}

// Whether the ring is a field of width 4.
pub fn is_field<R: Ring>(ring: &R) -> bool
    ensures { Whether (Sixteen R.Ring.WIDTH (R.Ring.mul ring.now)) result }
{
    R::WIDTH == 4 && all_invertible(ring)
}

// Of all lawful pairs of the ring and the octic, the one with the fewest ones; among equals the smaller constant wins, then
// the smaller column where they first differ.
pub fn fit<R: Ring>(ring: &R, octic: u16) -> Result<Pair, Refusal>
    ensures { Fitted R.Ring.WIDTH (R.Ring.mul ring.now) octic result }
{
    if !is_field(ring) {
        return Err(Refusal::NotField);
    }
    check_octic(octic)?;
    Ok(search::least(ring, octic))
}
