// The search for the least lawful pair, over the bytes that a root of z⁴ + z + 1 and Y may go to.
ghost use Rattle.std.specs.Prelude.{◌≡◌, ℕ, ◌+◌, ◌*◌, ◌^◌, ◌<◌, ◌≤◌};
ghost use Rattle.rings.specs.Poly.{mul_mod};
ghost use Rattle.octics.specs.Octics.{Accepted};
ghost use Rattle.towers.specs.Fitted.{Sixteen};
ghost use Rattle.towers.specs.Keeps.{Keeps};
ghost use Rattle.towers.specs.Place.{IsRoot, powers_of, Based, Built, Visited};
ghost use Rattle.towers.specs.Search.{Earlier, Least};
ghost use Rattle.towers.specs.Tests.{Whether};

use crate::matrix::{combine, count, preimage, reverse, solve};
use crate::pair::Pair;
use rings::Ring;
use rings::poly::Octic;

// A search: the octic's ring, the powers of a root in the tower's ring, and the codes 1, 2, 4 and 8 as polynomials in that root. What is
// kept so far changes at each place, so it is an argument and no field.
#[derive(Drop)]
struct Search {
    octic: Octic,
    powers: [u8; 4],
    coordinates: [u8; 4],
}

// Whether g is a root of z⁴ + z + 1.
fn is_root<R: Ring>(ring: &R, g: u8) -> bool
    requires { g < 2 ^ R.Ring.WIDTH }
    ensures { Whether (IsRoot 1 (R.Ring.mul ring.now) g) result }
{
    let square = ring.product(g, g);
    ring.product(square, square) == g ^ 1
}

// The powers 0 to 3 of g.
fn powers<R: Ring>(ring: &R, g: u8) -> [u8; 4]
    requires { g < 2 ^ R.Ring.WIDTH }
    ensures { result ≡ powers_of 1 (R.Ring.mul ring.now) g }
{
    let square = ring.product(g, g);
    [1, g, square, ring.product(g, square)]
}

// A root of z⁴ + z + 1, which every field of sixteen codes has. That the ring is such a field stays a `requires` of the few private
// functions that build on it: what they answer is drawn from the inverses that the fact holds, and a ghost field has it only so far as
// no answer depends on which inverses they are.
fn root<R: Ring>(ring: &R) -> u8
    requires { Sixteen R.Ring.WIDTH (R.Ring.mul ring.now) }
    ensures code { result < 16 }
    ensures is { IsRoot 1 (R.Ring.mul ring.now) result }
{
    for g in 0..16 {
        if is_root(ring, g) {
            return g;
        }
    }
    unreachable()
}

// The found pair where it comes before the best so far, and else the best so far.
fn earlier(best: Option<Pair>, found: Pair) -> Pair
    ensures { Earlier best found result }
{
    match best {
        Some(kept) => { if found.precedes(&kept) { found } else { kept } }
        None => found,
    }
}

impl Search {
    fn new<R: Ring>(ring: &R, octic: Octic) -> Search
        requires { Sixteen R.Ring.WIDTH (R.Ring.mul ring.now) }
        ensures octic { result.octic.modulus ≡ octic.modulus }
        ensures based { Based (R.Ring.mul ring.now) result.powers result.coordinates }
    {
        let powers = powers(ring, root(ring));
        let coordinates = [1, 2, 4, 8].map(|code| preimage(&powers, 16, code));
        Search {
            octic,
            powers,
            coordinates,
        }
    }

    // The product in the octic's ring.
    fn times(&self, a: u8, b: u8) -> u8
        ensures { result ≡ mul_mod 8 self.now.octic.modulus a b }
    {
        self.octic.product(a, b)
    }

    // The pair at a byte y and the powers of a byte r, where y y + y is the polynomial u in r.
    fn pair_at(&self, powers: &[u8; 4], y: u8, u: u8) -> Pair
        ensures { Built self.now.powers self.now.coordinates powers.now (mul_mod 8 self.now.octic.modulus) y u result }
    {
        let [a, b, c, d] = self.coordinates.map(|v| combine(powers, v));
        let [e, f, g, h] = [a, b, c, d].map(|column| self.times(y, column));
        let columns = [a, b, c, d, e, f, g, h];
        let reverse = reverse(&columns);
        Pair {
            constant: combine(&self.powers, u),
            ones: count(&columns) + count(&reverse),
            columns,
            reverse,
        }
    }

    // The lawful pair at the bytes r, a root, and y, if there is one.
    fn visit(&self, r: u8, y: u8) -> Option<Pair>
        requires { IsRoot 1 (mul_mod 8 self.now.octic.modulus) r }
        ensures { Visited self.now.powers self.now.coordinates (mul_mod 8 self.now.octic.modulus) r y result }
    {
        let powers = powers(&self.octic, r);
        if solve(&powers, 16, y).is_some() {
            return None;
        }
        let u = solve(&powers, 16, self.times(y, y) ^ y)?;
        Some(self.pair_at(&powers, y, u))
    }

    // The best so far, after the byte y beside the root r. (A `map_or` is no plainer: that the
    // best stays would be its first argument.)
    fn place(&self, r: u8, y: u8, best: Option<Pair>) -> Option<Pair>
        requires root { IsRoot 1 (mul_mod 8 self.now.octic.modulus) r }
        requires least { Least self.now.powers self.now.coordinates (mul_mod 8 self.now.octic.modulus) (r * 256 + y) best }
        ensures { Least self.now.powers self.now.coordinates (mul_mod 8 self.now.octic.modulus) (r * 256 + (y + 1)) result }
    {
        match self.visit(r, y) {
            Some(found) => Some(earlier(best, found)),
            None => best,
        }
    }

    // The best so far, after all bytes y beside the byte r; only four bytes are roots.
    fn row(&self, r: u8, start: Option<Pair>) -> Option<Pair>
        requires { Least self.now.powers self.now.coordinates (mul_mod 8 self.now.octic.modulus) (r * 256) start }
        ensures { Least self.now.powers self.now.coordinates (mul_mod 8 self.now.octic.modulus) ((r + 1) * 256) result }
    {
        if !is_root(&self.octic, r) {
            return start;
        }
        let mut best = start;
        for y in 0..=255 {
            best = self.place(r, y, best);
        }
        best
    }

    // The least pair over all bytes r and y.
    fn least(&self) -> Option<Pair>
        ensures { Least self.now.powers self.now.coordinates (mul_mod 8 self.now.octic.modulus) 65536 result }
    {
        let mut best = None;
        for r in 0..=255 {
            best = self.row(r, best);
        }
        best
    }
}

// The least lawful pair, which every field of sixteen codes and every accepted octic have.
pub(crate) fn least<R: Ring>(ring: &R, octic: u16) -> Pair
    requires field { Sixteen R.Ring.WIDTH (R.Ring.mul ring.now) }
    requires accepted { Accepted octic }
    ensures { Keeps (R.Ring.mul ring.now) octic result }
{
    Search::new(ring, Octic::new(octic)).least().unwrap()
}
