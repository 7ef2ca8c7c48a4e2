// The worked cases that are proved as facts of the definitions: one list, and one assertion over all of it.
#![tactic(auto)]

ghost use Rattle.std.specs.Prelude.{◌≡◌, length};
ghost use Rattle.facts.specs.Cases.{AllHold};

use towers::pair::Pair;

/// A worked case; `Holds` in specs/Cases.antt says of each what it states.
#[derive(Clone, Copy)]
pub enum Case {
    /// In ring 13 the inverse of `a` is `b`, and that of `b` is `a`.
    Inverses {
        a: u8,
        b: u8,
    },
    /// The octic is accepted.
    AcceptedOctic {
        octic: u16,
    },
    /// A fit of ring 13 to the octic is refused, by the refusal with this number.
    RefusedOctic {
        octic: u16,
        number: u8,
    },
    /// Box A makes `y` of `x`.
    BoxA {
        x: u8,
        y: u8,
    },
    /// Box S makes `y` of `x`.
    BoxS {
        x: u8,
        y: u8,
    },
    /// For ring 13 and the octic the pair is lawful, with so many ones in its map and in the reverse map.
    Lawful {
        octic: u16,
        pair: Pair,
        map_ones: u8,
        reverse_ones: u8,
    },
    /// The bearing of a sector's number, in tenths of a degree.
    Bearing {
        number: u64,
        tenths: u16,
    },
}

/// The worked cases, each of which holds. Octics, bytes and columns are in hexadecimal.
pub const CASES: [Case; 22] = [
    Case::Inverses { a: 2, b: 9 },
    Case::Inverses { a: 3, b: 14 },
    Case::Inverses { a: 4, b: 13 },
    Case::Inverses { a: 5, b: 11 },
    Case::Inverses { a: 6, b: 7 },
    Case::Inverses { a: 8, b: 15 },
    Case::Inverses { a: 10, b: 12 },
    Case::AcceptedOctic { octic: 0x11b },
    Case::AcceptedOctic { octic: 0x1f5 },
    Case::RefusedOctic {
        octic: 0x0ff,
        number: 2,
    },
    Case::RefusedOctic {
        octic: 0x200,
        number: 2,
    },
    Case::RefusedOctic {
        octic: 0x100,
        number: 3,
    },
    Case::BoxA { x: 0x00, y: 0x63 },
    Case::BoxA { x: 0x53, y: 0xed },
    Case::BoxS { x: 0x00, y: 0xd6 },
    Case::BoxS { x: 0x01, y: 0x90 },
    Case::Lawful {
        octic: 0x11b,
        pair: Pair {
            constant: 12,
            ones: 45,
            columns: [0x01, 0xe0, 0x5d, 0xb0, 0x42, 0xe5, 0x10, 0x82],
            reverse: [0x01, 0x5a, 0x23, 0x2c, 0x40, 0x92, 0x4a, 0xda],
        },
        map_ones: 22,
        reverse_ones: 23,
    },
    Case::Lawful {
        octic: 0x1f5,
        pair: Pair {
            constant: 15,
            ones: 44,
            columns: [0x01, 0x50, 0x0d, 0x7a, 0xc5, 0x5a, 0x32, 0x08],
            reverse: [0x01, 0xa2, 0x85, 0x80, 0xca, 0x28, 0xc8, 0x5c],
        },
        map_ones: 23,
        reverse_ones: 21,
    },
    Case::Bearing {
        number: 128,
        tenths: 113,
    },
    Case::Bearing {
        number: 384,
        tenths: 338,
    },
    Case::Bearing {
        number: 4095,
        tenths: 3599,
    },
    Case::Bearing {
        number: 4096,
        tenths: 0,
    },
];

// Each case of the list holds.
fn check_cases()
    ensures { AllHold CASES }
{}

/// How many cases the list has; each of them holds.
pub fn proved_cases() -> usize
    ensures count { result ≡ length CASES }
    ensures hold { AllHold CASES }
{
    check_cases();
    CASES.len()
}
