// A caller of the watch: what is sealed at the first end is opened at the second, shown from the contracts of the watch and its tickets.
#![tactic(auto)]

ghost use Rattle.std.specs.Prelude.{◌≡◌};
ghost use Rattle.trip.specs.Trips.{Trips, over};

use refusals::Refusal;
use rings::Ring;
use watch::side::Side;
use watch::two::Watch;

/// Makes two ends over the rings `x` and `y`, fits both to the octic and gives each its key of the letter's cipher, by way of the work
/// area; seals the bytes at the first end, under name 1 and number 0, and opens them at the second. Answers the sealed bytes, as they
/// crossed, and leaves in `bytes` what they open to under the second key: the first bytes, if both keys are the same. Refused, it
/// answers the first refusal of these calls, and the bytes are as they were. The work area is as it was where a fit is refused, and
/// else all zero.
pub fn round_trip<X: Ring + Drop, Y: Ring + Drop, const N: usize>(
    x: X,
    y: Y,
    octic: u16,
    letter: char,
    first: &[u8],
    second: &[u8],
    work: &mut [u8],
    bytes: &mut [u8; N],
) -> Result<[u8; N], Refusal>
    ensures back { first.now ≡ second.now → bytes.new ≡ bytes.old }
    ensures answer { Trips (over X.Ring.WIDTH (X.Ring.mul x)) (over Y.Ring.WIDTH (Y.Ring.mul y)) octic letter first.now second.now work.old bytes.old result work.new bytes.new }
{
    let mut w = Watch::new(x, 1, 0, y, 2, 0);
    w.fit(Side::First, octic)?;
    w.fit(Side::Second, octic)?;
    w.key(Side::First, letter, first, work)?;
    w.key(Side::Second, letter, second, work)?;
    let ticket = w.draw(Side::First)?;
    let name = ticket.name();
    let number = ticket.number();
    w.seal(Side::First, ticket, bytes)?;
    let sealed = *bytes;
    w.open(Side::Second, name, number, bytes)?;
    Ok(sealed)
}
