// Published vectors of the standards: each function gives the published bytes, and its contract says that the definitions give the same.
// Each has a function of its own, since a constant has no contract, and one function for all would prove all of them at each change.
#![tactic(auto)]

ghost use Rattle.std.specs.Prelude.{◌≡◌, ◌++◌, get_or};
ghost use Rattle.ciphers.specs.Counter.{big_endian};
ghost use Rattle.vectors.specs.Vectors.{box_bytes, fips_b, fips_c1, gbt_example, counter_blocks};

// Box A of 00 and 53, and box S of 00 and 01.
pub fn boxes_of_bytes() -> [u8; 4]
    ensures { result ≡ box_bytes }
{
    [0x63, 0xed, 0xd6, 0x90]
}

// FIPS 197, appendix B.
pub fn aes_b() -> u128
    ensures { fips_b ≡ big_endian 16 result }
{
    0x3925841d02dc09fbdc118597196a0b32
}

// FIPS 197, appendix C.1.
pub fn aes_c1() -> u128
    ensures { fips_c1 ≡ big_endian 16 result }
{
    0x69c4e0d86a7b0430d8cdb78070b4c55a
}

// GB/T 32907-2016, the first example.
pub fn sm4_example() -> u128
    ensures { gbt_example ≡ big_endian 16 result }
{
    0x681edf34d206965e86b3e94f536e4246
}

// SP 800-38A, F.5.1, the first two blocks.
pub fn counter_example() -> [u128; 2]
    ensures { counter_blocks ≡ big_endian 16 (get_or result 0 0) ++ big_endian 16 (get_or result 1 0) }
{
    [
        0x874d6191b620e3261bef6864990db6ce,
        0x9806f66b7970fdff8617187bb9fffdff,
    ]
}
