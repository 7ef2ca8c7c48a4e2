// The inverses of all bytes, by the tower that is fitted.
ghost use Rattle.std.specs.Prelude.{◌≡◌, ◌<◌};
ghost use Rattle.boxes.specs.Boxes.{inverse_mod};
ghost use Rattle.octics.specs.Octics.{Accepted};
ghost use Rattle.towers.specs.Fitted.{Sixteen};
ghost use Rattle.towers.specs.Keeps.{Keeps};
ghost use Rattle.towers.specs.Trails.{Arrives};

use crate::inverses::Inverses;
use rings::Ring;
use std::array;
use towers::pair::Pair;
use towers::trail::trail_of;

// The inverses of all bytes, each by its trail. The three facts stay a `requires`: that a pair is kept brings its maps, so a
// ghost field could hold only that there is such a fact.
pub(super) fn inverses_by<R: Ring>(ring: &R, octic: u16, pair: &Pair) -> Inverses
    requires field { Sixteen R.Ring.WIDTH (R.Ring.mul ring.now) }
    requires accepted { Accepted octic }
    requires kept { Keeps (R.Ring.mul ring.now) octic pair.now }
    ensures { result.octic ≡ octic }
{
    let table = array::from_fn(
        |x| -> u8
            requires { x < 256 }
            ensures { Arrives R.Ring.WIDTH (R.Ring.mul ring.entry.now) pair.entry.now x result }
        { trail_of(ring, pair, x as u8).byte },
    );
    Inverses { octic, table }
}
