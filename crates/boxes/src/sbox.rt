// The boxes A and S: the maps that a byte goes through before and after it is inverted in the ring of an octic.
ghost use Rattle.std.specs.Prelude.{◌≡◌, ℕ, ◌/◌, ◌^◌, refl};
ghost use Rattle.boxes.specs.Boxes.{affine_a, affine_s};
ghost use Rattle.boxes.specs.Turns.{turned};

pub trait Sbox {
    const OCTIC: u16;

    ghost OCTIC: { ℕ };

    ghost before: { ℕ → ℕ };

    ghost after: { ℕ → ℕ };

    fn before(x: u8) -> u8
        ensures { result ≡ before x };

    fn after(y: u8) -> u8
        ensures { result ≡ after y };

    // The octic is of degree 8.
    ghost degree: { OCTIC / 2 ^ 8 ≡ 1 };
}

// A byte, added to its turns to the right by four counts of places.
fn turned<const I: u32, const J: u32, const K: u32, const L: u32>(b: u8) -> u8
    ensures { result ≡ turned I J K L b }
{
    b ^ b.rotate_right(I) ^ b.rotate_right(J) ^ b.rotate_right(K) ^ b.rotate_right(L)
}

// The affine map of box S.
fn map_s(b: u8) -> u8
    ensures { result ≡ affine_s b }
{
    turned::<1, 2, 5, 7>(b) ^ 0xd3
}

// Box A: the inverse modulo 11B, and then its affine map.
#[derive(Clone, Copy)]
pub struct BoxA;

impl Sbox for BoxA {
    const OCTIC: u16 = 0x11b;

    ghost OCTIC = { 0x11b };

    ghost before = { λ x. x };

    ghost after = { affine_a };

    ghost degree = { refl };

    fn before(x: u8) -> u8 {
        x
    }

    fn after(y: u8) -> u8 {
        turned::<4, 5, 6, 7>(y) ^ 0x63
    }
}

// Box S: its affine map before the inverse modulo 1F5, and after it.
#[derive(Clone, Copy)]
pub struct BoxS;

impl Sbox for BoxS {
    const OCTIC: u16 = 0x1f5;

    ghost OCTIC = { 0x1f5 };

    ghost before = { affine_s };

    ghost after = { affine_s };

    ghost degree = { refl };

    fn before(b: u8) -> u8 {
        map_s(b)
    }

    fn after(y: u8) -> u8 {
        map_s(y)
    }
}
