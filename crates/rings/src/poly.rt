// Polynomials over the field of two elements, modulo a polynomial.
ghost use Rattle.std.specs.Prelude.{◌≡◌, ℕ, ◌+◌, ◌/◌, ◌%◌, ◌^◌, ◌<◌, ◌≤◌, refl};
ghost use Rattle.rings.specs.Poly.{times_x, mul_mod, Remainder};
ghost use Rattle.rings.specs.Moduli.{modulus_of};
ghost use Rattle.std.proofs.Common.{lit<, rules, arith};
ghost use Rattle.rings.specs.PolyLaws.{mul_mod_laws};
ghost use Rattle.rings.specs.QuarticDegrees.{of_degree};

use crate::Ring;

// A modulus of degree W. The rings below are no instances of it: an impl for every W would owe the law that W is 2, 4 or 8.
#[derive(Clone, Copy)]
struct Modulus<const W: u32> {
    bits: u16,
    ghost narrow: { W ≤ 8 },
    ghost degree: { bits / 2 ^ W ≡ 1 },
}

impl<const W: u32> Modulus<W> {
    // Times the indeterminate.
    fn times_x(&self, v: u16) -> u16
        requires { v < 2 ^ W }
        ensures { result ≡ times_x W self.now.bits v }
    {
        let t = v * 2;
        if (t >> W) & 1 == 1 { t ^ self.bits } else { t }
    }

    // The product, by Horner's rule: the one code that differs from the product of the polynomials by a multiple of the modulus.
    fn multiply(&self, a: u8, b: u8) -> u8
        requires { b < 2 ^ W }
        ensures value { result ≡ mul_mod W self.now.bits a b }
        ensures remainder { Remainder W self.now.bits a b result }
    {
        let mut r = 0;
        for i in (0..W).rev() {
            r = self.times_x(r);
            if (a >> i) & 1 == 1 {
                r ^= b as u16;
            }
        }
        r as u8
    }

    // The low bits of a code, as many as the width.
    fn low_bits(&self, a: u8) -> u8
        ensures { result ≡ a % 2 ^ W }
    {
        (a as u16 % (1 << W)) as u8
    }

    // The product of the low bits of two codes.
    fn product(&self, a: u8, b: u8) -> u8
        ensures value { result ≡ mul_mod W self.now.bits (a % 2 ^ W) (b % 2 ^ W) }
        ensures remainder { Remainder W self.now.bits (a % 2 ^ W) (b % 2 ^ W) result }
    {
        self.multiply(self.low_bits(a), self.low_bits(b))
    }
}

// The field of four: code 2 is V, whose square is V + 1.
#[derive(Clone, Copy)]
pub struct Four;

impl Ring for Four {
    const WIDTH: u32 = 2;

    ghost WIDTH = { 2 };

    ghost mul = { λ _. mul_mod 2 7 };

    ghost narrow = { Prim.search rules };

    ghost laws = { λ r. mul_mod_laws 2 7 refl (lit< tt) };

    fn product(&self, a: u8, b: u8) -> u8
        ensures value { result ≡ mul_mod 2 7 (a % 2 ^ 2) (b % 2 ^ 2) }
        ensures remainder { Remainder 2 7 (a % 2 ^ 2) (b % 2 ^ 2) result }
    {
        Modulus::<2> { bits: 7 }.product(a, b)
    }
}

// The rings of width 4, named by their moduli.
#[derive(Clone, Copy)]
pub enum Quartic {
    Ring13,
    Ring19,
    Ring1F,
}

impl Quartic {
    // The modulus: bit i is the coefficient of the power i.
    pub fn modulus(&self) -> u16
        ensures { result ≡ modulus_of self.now }
    {
        match self {
            Quartic::Ring13 => 0x13,
            Quartic::Ring19 => 0x19,
            Quartic::Ring1F => 0x1f,
        }
    }
}

impl Ring for Quartic {
    const WIDTH: u32 = 4;

    ghost WIDTH = { 4 };

    ghost mul = { λ r. mul_mod 4 (modulus_of r) };

    ghost narrow = { Prim.search rules };

    ghost laws = { λ r. mul_mod_laws 4 (modulus_of r) (of_degree r) (lit< tt) };

    fn product(&self, a: u8, b: u8) -> u8
        ensures value { result ≡ mul_mod 4 (modulus_of self.now) (a % 2 ^ 4) (b % 2 ^ 4) }
        ensures remainder { Remainder 4 (modulus_of self.now) (a % 2 ^ 4) (b % 2 ^ 4) result }
    {
        let bits = self.modulus();
        Modulus::<4> { bits }.product(a, b)
    }
}

// The octic ring: codes of eight bits, modulo a polynomial of degree 8.
#[derive(Clone, Copy)]
pub struct Octic {
    modulus: u16,
    ghost degree: { modulus / 2 ^ 8 ≡ 1 },
}

impl Octic {
    // Of the number the low eight bits count, with bit 8 set.
    pub fn new(number: u16) -> Octic
        ensures { result.modulus ≡ 256 + number % 256 }
    {
        Octic {
            modulus: 256 + number % 256,
        }
    }
}

impl Ring for Octic {
    const WIDTH: u32 = 8;

    ghost WIDTH = { 8 };

    ghost mul = { λ r. mul_mod 8 r.modulus };

    ghost narrow = { Prim.search rules };

    ghost laws = { λ r. mul_mod_laws 8 r.modulus r.degree (lit< tt) };

    fn product(&self, a: u8, b: u8) -> u8
        ensures value { result ≡ mul_mod 8 self.now.modulus (a % 2 ^ 8) (b % 2 ^ 8) }
        ensures remainder { Remainder 8 self.now.modulus (a % 2 ^ 8) (b % 2 ^ 8) result }
    {
        Modulus::<8> { bits: self.modulus }.product(a, b)
    }
}
