// The pairing over a ring: a code holds r1 in its high half and r0 in its low half, and means r1 Y + r0, where Y Y = Y + c.
ghost use Rattle.std.specs.Prelude.{◌≡◌, MatchOption, ℕ, ◌+◌, ◌*◌, ◌/◌, ◌%◌, ◌^◌, ◌<◌, ◌≤◌};
ghost use Rattle.rings.specs.Laws.{Inverts};
ghost use Rattle.rings.specs.Pairing.{lows, schoolbook, form, by_norm, norm as norm_of, pairing_bits, pairing_mul, Normed, FromBelow};
ghost use Rattle.rings.specs.PairCode.{pairing_laws};
ghost use Rattle.std.proofs.Common.{rules};

use crate::Ring;

// The pairing over a ring that is lent, with a constant. An `impl Ring` for a type with a lifetime gets no clauses for `WIDTH` from
// the trait yet, so these methods are its own.
#[derive_where(Clone, Copy)]
pub struct Lent<'a, R> {
    below: &'a R,
    constant: u8,
}

// A code from its halves, of w bits each.
fn join(w: u32, high: u8, low: u8) -> u8
    requires narrow { w ≤ 4 }
    requires high { high < 2 ^ w }
    requires low { low < 2 ^ w }
    ensures { result ≡ high * 2 ^ w + low }
{
    (high << w) | low
}

impl<'a, R: Ring> Lent<'a, R> {
    // Of the constant the low bits count, as many as the width below.
    pub fn new(below: &'a R, constant: u8) -> Self
        ensures below { result.below.now ≡ below.now }
        ensures constant { result.constant ≡ constant }
    {
        Lent { below, constant }
    }

    // The halves of the codes, or none over width 8.
    fn halves(&self) -> Option<Halves<'a, R>>
        ensures { MatchOption result (8 ≤ R.Ring.WIDTH) (λ h. (h.below.now ≡ self.now.below.now) × (h.constant ≡ self.now.constant)) }
    {
        if R::WIDTH >= 8 {
            return None;
        }
        Some(Halves {
            below: self.below,
            constant: self.constant,
        })
    }

    // The norm, a code of the ring below, which has an inverse there just if `a` has one here. Over width 8 a code is its own norm.
    pub fn norm(&self, a: u8) -> u8
        ensures { Normed R.Ring.WIDTH 1 (R.Ring.mul self.now.below.now) self.now.constant (a % 2 ^ pairing_bits R.Ring.WIDTH) result }
    {
        match self.halves() {
            Some(halves) => halves.norm(a),
            None => a,
        }
    }

    // The product. Over width 8 the pairing is the ring below.
    pub fn product(&self, a: u8, b: u8) -> u8
        ensures { result ≡ pairing_mul R.Ring.WIDTH (R.Ring.mul self.now.below.now) self.now.constant (a % 2 ^ pairing_bits R.Ring.WIDTH) (b % 2 ^ pairing_bits R.Ring.WIDTH) }
    {
        match self.halves() {
            Some(halves) => halves.product(a, b),
            None => self.below.product(a, b),
        }
    }

    /// The code whose product with `a` is 1, or none where there is no such code. Over width 2 or 4 it has r1 m in its high half and
    /// (r0 + r1) m in its low half, where m is the inverse below of the norm of `a`; over width 8 it is the inverse below.
    pub fn inverse(&self, a: u8) -> Option<u8>
        ensures inverse { Inverts (pairing_bits R.Ring.WIDTH) 1 (pairing_mul R.Ring.WIDTH (R.Ring.mul self.now.below.now) self.now.constant) (a % 2 ^ pairing_bits R.Ring.WIDTH) result }
        ensures halves { let w = R.Ring.WIDTH in
            FromBelow w 1 (R.Ring.mul self.now.below.now) self.now.constant (a % 2 ^ pairing_bits w) result }
    {
        match self.halves() {
            Some(halves) => halves.inverse(a),
            None => self.below.inverse(a),
        }
    }
}

// The same where the ring below has width 2 or 4, so that a code has halves. The ring below reads only the low bits.
#[derive(Drop)]
struct Halves<'a, R: Ring> {
    below: &'a R,
    constant: u8,
    ghost narrow: { R.Ring.WIDTH < 8 },
}

impl<R: Ring> Halves<'_, R> {
    fn norm(&self, a: u8) -> u8
        ensures halves { result ≡ norm_of R.Ring.WIDTH (R.Ring.mul self.now.below.now) self.now.constant (a % 2 ^ (R.Ring.WIDTH + R.Ring.WIDTH)) }
        ensures normed { Normed R.Ring.WIDTH 1 (R.Ring.mul self.now.below.now) self.now.constant (a % 2 ^ pairing_bits R.Ring.WIDTH) result }
    {
        self.norm_form(a)
    }

    fn inverse(&self, a: u8) -> Option<u8>
        ensures inverse { Inverts (pairing_bits R.Ring.WIDTH) 1 (pairing_mul R.Ring.WIDTH (R.Ring.mul self.now.below.now) self.now.constant) (a % 2 ^ pairing_bits R.Ring.WIDTH) result }
        ensures halves { let w = R.Ring.WIDTH in
            FromBelow w 1 (R.Ring.mul self.now.below.now) self.now.constant (a % 2 ^ pairing_bits w) result }
    {
        let m = self.below.inverse(self.norm(a))?;
        Some(self.divide(a, m))
    }

    // The quadratic form of the halves that is the norm.
    fn norm_form(&self, a: u8) -> u8
        ensures { result ≡ form (lows R.Ring.WIDTH (R.Ring.mul self.now.below.now)) self.now.constant (a / 2 ^ R.Ring.WIDTH) a }
    {
        let a1 = a >> R::WIDTH;
        let low_square = self.below.product(a, a);
        let cross = self.below.product(a, a1);
        let high_square = self.below.product(a1, a1);
        let carry = self.below.product(self.constant, high_square);
        low_square ^ cross ^ carry
    }

    fn product(&self, a: u8, b: u8) -> u8
        ensures { result ≡ schoolbook R.Ring.WIDTH (lows R.Ring.WIDTH (R.Ring.mul self.now.below.now)) self.now.constant (a / 2 ^ R.Ring.WIDTH) a (b / 2 ^ R.Ring.WIDTH) b }
    {
        let w = R::WIDTH;
        let a1 = a >> w;
        let b1 = b >> w;
        let top = self.below.product(a1, b1);
        let left = self.below.product(a1, b);
        let right = self.below.product(a, b1);
        let bottom = self.below.product(a, b);
        let carry = self.below.product(self.constant, top);
        join(w, top ^ left ^ right, bottom ^ carry)
    }

    // The halves of the inverse, where m is the norm's inverse: r1 m, and (r0 + r1) m.
    fn divide(&self, a: u8, m: u8) -> u8
        ensures { result ≡ by_norm R.Ring.WIDTH (lows R.Ring.WIDTH (R.Ring.mul self.now.below.now)) (a / 2 ^ R.Ring.WIDTH) a m }
    {
        let w = R::WIDTH;
        let a1 = a >> w;
        let high = self.below.product(a1, m);
        let low = self.below.product(a ^ a1, m);
        join(w, high, low)
    }
}

#[derive(Drop)]
pub struct Pairing<R> {
    below: R,
    constant: u8,
}

impl<R: Ring> Pairing<R> {
    // The pairing over `below` with a constant, of which the low bits count, as many as the width below.
    pub fn new(below: R, constant: u8) -> Pairing<R>
        ensures below { result.below ≡ below }
        ensures constant { result.constant ≡ constant }
    {
        Pairing { below, constant }
    }

    // The same pairing over the ring below, lent.
    fn lend(&self) -> Lent<'_, R>
        ensures below { result.below.now ≡ self.now.below }
        ensures constant { result.constant ≡ self.now.constant }
    {
        Lent::new(&self.below, self.constant)
    }

    // The norm, a code of the ring below, which has an inverse there just if `a` has one here.
    pub fn norm(&self, a: u8) -> u8
        ensures { Normed R.Ring.WIDTH 1 (R.Ring.mul self.now.below) self.now.constant (a % 2 ^ pairing_bits R.Ring.WIDTH) result }
    {
        self.lend().norm(a)
    }
}

impl<R: Ring> Ring for Pairing<R> {
    const WIDTH: u32 = R::WIDTH.wrapping_add(R::WIDTH & 6);

    ghost WIDTH = { pairing_bits R.Ring.WIDTH };

    ghost mul = { λ p. pairing_mul R.Ring.WIDTH (R.Ring.mul p.below) p.constant };

    ghost narrow = { Prim.search rules };

    ghost laws = { λ p. pairing_laws R.Ring.WIDTH 1 (R.Ring.mul p.below) p.constant R.Ring.narrow (R.Ring.laws p.below) };

    fn product(&self, a: u8, b: u8) -> u8 {
        self.lend().product(a, b)
    }

    /// The inverse by halves, as of the pairing lent. (The first clause is the trait's: a method with clauses of its own has those alone.)
    fn inverse(&self, a: u8) -> Option<u8>
        ensures inverse { Inverts (pairing_bits R.Ring.WIDTH) 1 (pairing_mul R.Ring.WIDTH (R.Ring.mul self.now.below) self.now.constant) (a % 2 ^ pairing_bits R.Ring.WIDTH) result }
        ensures halves { let w = R.Ring.WIDTH in
            FromBelow w 1 (R.Ring.mul self.now.below) self.now.constant (a % 2 ^ pairing_bits w) result }
    {
        self.lend().inverse(a)
    }
}
