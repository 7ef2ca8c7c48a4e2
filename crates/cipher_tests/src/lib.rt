// Published vectors and values of another implementation, run through the public calls.
#![tactic(auto)]

#[cfg(test)]
mod tests {
    use boxes::Substitute;
    use boxes::direct::Direct;
    use boxes::sbox::{BoxA, BoxS};
    use ciphers::counter::{work_from, work_sector};
    use ciphers::keys::{Cipher, Schedule};
    use refusals::Refusal;
    use std::alloc::{AllocError, Global};
    use std::iter::successors;
    use std::process::Abort;
    use std::test::Fail;

    const KEY: [u8; 16] = [0, 1, 2, 3, 4, 5, 6, 7, 8, 9, 10, 11, 12, 13, 14, 15];

    // Lengths, each with the digest of a sector sealed under name C0DE and number FEDCBA9876543210.
    const AES_DIGESTS: [(usize, u64); 8] = [
        (1, 0x0000000000000062),
        (15, 0x884f07605436a7c6),
        (16, 0x8191e4aa329e517b),
        (17, 0xb0aab09c212bde7f),
        (255, 0x6fa2a501352d44cd),
        (256, 0x84b1fb25707b557d),
        (4095, 0x214a85ed097e424d),
        (4096, 0x080637b4264a0763),
    ];

    const SM4_DIGESTS: [(usize, u64); 8] = [
        (1, 0x00000000000000c1),
        (15, 0x82ba681680ac04b3),
        (16, 0xd4929ab994d49210),
        (17, 0xbdc0bc7905bdb087),
        (255, 0x86a94a323bb5c082),
        (256, 0x4e7ffc153b02503d),
        (4095, 0xd283d36130f69576),
        (4096, 0x7df698c4eddc19dd),
    ];

    // The key of FIPS 197, appendix B, and of SP 800-38A.
    const NIST_KEY: u128 = 0x2b7e151628aed2a6abf7158809cf4f3c;

    // SP 800-38A, F.5.1: the first counter block, the four blocks and what they are sealed to.
    const FIRST: u128 = 0xf0f1f2f3f4f5f6f7f8f9fafbfcfdfeff;

    const PLAINTEXT: [u128; 4] = [
        0x6bc1bee22e409f96e93d7e117393172a,
        0xae2d8a571e03ac9c9eb76fac45af8e51,
        0x30c81c46a35ce411e5fbc1191a0a52ef,
        0xf69f2445df4f9b17ad2b417be66c3710,
    ];

    const CIPHERTEXT: [u128; 4] = [
        0x874d6191b620e3261bef6864990db6ce,
        0x9806f66b7970fdff8617187bb9fffdff,
        0x5ae4df3edbd5d35e5b4f09020db03eab,
        0x1e031dda2fbe03d1792170a0f3009cee,
    ];

    // The schedule of a key that is given as a number.
    fn schedule<B: Substitute>(boxes: &B, cipher: Cipher, key: u128) -> Result<Schedule, Refusal> {
        Schedule::new(boxes, cipher, &key.to_be_bytes(), &mut [0; 176])
    }

    // A block under a key, as numbers. Any box goes with any cipher.
    fn block<B: Substitute>(
        boxes: &B,
        cipher: Cipher,
        key: u128,
        block: u128,
    ) -> Result<u128, Refusal> {
        let keys = schedule(boxes, cipher, key)?;
        Ok(u128::from_be_bytes(keys.encrypt(boxes, block.to_be_bytes())))
    }

    fn digest(bytes: &[u8]) -> u64 {
        bytes.iter().fold(0, |sum: u64, b| {
            sum.wrapping_mul(31).wrapping_add(u64::from(*b))
        })
    }

    // The bytes 3, 10, 17 and so on. The bytes of the other tests too; a crate for three lines is no plainer.
    fn sector(heap: Global, length: usize) -> Result<Vec<u8>, AllocError> {
        successors(Some(3u8), |b| Some(b.wrapping_add(7)))
            .take(length)
            .collect(heap)
    }

    // The digest of a sector once it is sealed, or the refusal.
    fn sealed<B: Substitute>(
        boxes: &B,
        cipher: Cipher,
        name: u16,
        number: u64,
        mut bytes: Vec<u8>,
    ) -> Result<u64, Refusal> {
        let keys = Schedule::new(boxes, cipher, &KEY, &mut [0; 176])?;
        work_sector(boxes, &keys, name, number, &mut bytes)?;
        Ok(digest(&bytes))
    }

    // The refusal's number of a key and a work area, or none.
    fn refused(cipher: Cipher, key: &[u8], work: &mut [u8]) -> Option<u8> {
        Schedule::new(&Direct(BoxA), cipher, key, work)
            .err()
            .map(|refusal| refusal.number())
    }

    // Blocks one after the other.
    fn joined(heap: Global, blocks: [u128; 4]) -> Result<Vec<u8>, AllocError> {
        blocks
            .map(|block| block.to_be_bytes())
            .as_flattened()
            .to_vec(heap)
    }

    // A table's sectors are sealed to its digests.
    fn check_digests<B: Substitute>(
        rt: &impl Abort,
        heap: Global,
        boxes: &B,
        cipher: Cipher,
        digests: [(usize, u64); 8],
    ) -> Result<(), Fail> {
        for (length, expected) in digests {
            let bytes = sector(heap, length)?;
            assert_eq!(rt;
                sealed(boxes, cipher, 0xc0de, 0xfedcba9876543210, bytes),
                Ok(expected),
                "at {length}"
            );
        }
        Ok(())
    }

    #[test]
    fn aes_blocks(rt: HostRuntime) {
        assert_eq!(rt;
            block(
                &Direct(BoxA),
                Cipher::Aes,
                NIST_KEY,
                0x3243f6a8885a308d313198a2e0370734,
            ),
            Ok(0x3925841d02dc09fbdc118597196a0b32)
        );
        assert_eq!(rt;
            block(
                &Direct(BoxA),
                Cipher::Aes,
                0x000102030405060708090a0b0c0d0e0f,
                0x00112233445566778899aabbccddeeff,
            ),
            Ok(0x69c4e0d86a7b0430d8cdb78070b4c55a)
        );
    }

    #[test]
    fn sm4_block(rt: HostRuntime) {
        let key = 0x0123456789abcdeffedcba9876543210;
        assert_eq!(rt;
            block(&Direct(BoxS), Cipher::Sm4, key, key),
            Ok(0x681edf34d206965e86b3e94f536e4246)
        );
    }

    // SP 800-38A, F.5.1: the sealed bytes alone, so that a failure names the direction.
    #[test]
    fn counter_mode(rt: HostRuntime) -> Result<(), Fail> {
        let keys = schedule(&Direct(BoxA), Cipher::Aes, NIST_KEY)?;
        let mut bytes = joined(rt.alloc(), PLAINTEXT)?;
        let expected = joined(rt.alloc(), CIPHERTEXT)?;
        work_from(&Direct(BoxA), &keys, FIRST, &mut bytes)?;
        assert!(rt; bytes == expected);
        Ok(())
    }

    // The same, and back by F.5.2.
    #[test]
    fn counter_mode_and_back(rt: HostRuntime) -> Result<(), Fail> {
        let keys = schedule(&Direct(BoxA), Cipher::Aes, NIST_KEY)?;
        let mut bytes = joined(rt.alloc(), PLAINTEXT)?;
        let expected = joined(rt.alloc(), CIPHERTEXT)?;
        work_from(&Direct(BoxA), &keys, FIRST, &mut bytes)?;
        assert!(rt; bytes == expected);
        work_from(&Direct(BoxA), &keys, FIRST, &mut bytes)?;
        assert!(rt; bytes == joined(rt.alloc(), PLAINTEXT)?);
        Ok(())
    }

    // The last word of FIPS 197, appendix A.1, and the first and the last round key of the example in GB/T 32907-2016.
    #[test]
    fn key_schedules(rt: HostRuntime) {
        let mut work = [0u8; 176];
        let key = NIST_KEY.to_be_bytes();
        assert!(rt; Schedule::new(&Direct(BoxA), Cipher::Aes, &key, &mut work).is_ok());
        assert!(rt; work[172..176] == [0xb6, 0x63, 0x0c, 0xa6]);
        let key = 0x0123456789abcdeffedcba9876543210u128.to_be_bytes();
        assert!(rt; Schedule::new(&Direct(BoxS), Cipher::Sm4, &key, &mut work).is_ok());
        assert!(rt; work[0..4] == [0xf1, 0x21, 0x86, 0xf9]);
        assert!(rt; work[124..128] == [0x91, 0x24, 0xa0, 0x12]);
    }

    #[test]
    fn aes_lengths(rt: HostRuntime) -> Result<(), Fail> {
        check_digests(&rt, rt.alloc(), &Direct(BoxA), Cipher::Aes, AES_DIGESTS)
    }

    #[test]
    fn sm4_lengths(rt: HostRuntime) -> Result<(), Fail> {
        check_digests(&rt, rt.alloc(), &Direct(BoxS), Cipher::Sm4, SM4_DIGESTS)
    }

    // Names and numbers with their highest bits set, and with no more than the lowest.
    #[test]
    fn names_and_numbers(rt: HostRuntime) -> Result<(), Fail> {
        let top = 0x8000000000000000;
        for (name, number, aes, sm4) in [
            (0x8000, top, 0x0ab423ae7b94c2fa, 0xa0718b6644d30411),
            (0xffff, u64::MAX, 0x285d912bb323f390, 0x2b67e7ffb38fcbb5),
            (0, 1, 0x9d73846b4073dd78, 0x97592b449699ce5c),
        ] {
            let bytes = sector(rt.alloc(), 255)?;
            assert_eq!(rt;
                sealed(&Direct(BoxA), Cipher::Aes, name, number, bytes),
                Ok(aes)
            );
            let bytes = sector(rt.alloc(), 255)?;
            assert_eq!(rt;
                sealed(&Direct(BoxS), Cipher::Sm4, name, number, bytes),
                Ok(sm4)
            );
        }
        Ok(())
    }

    #[test]
    fn sector_lengths(rt: HostRuntime) -> Result<(), Fail> {
        for length in [0, 4097] {
            let bytes = sector(rt.alloc(), length)?;
            let answer = sealed(&Direct(BoxA), Cipher::Aes, 1, 1, bytes);
            assert_eq!(rt; answer, Err(Refusal::SectorLength));
            let bytes = sector(rt.alloc(), length)?;
            let answer = sealed(&Direct(BoxS), Cipher::Sm4, 1, 1, bytes);
            assert_eq!(rt; answer, Err(Refusal::SectorLength));
        }
        Ok(())
    }

    #[test]
    fn keys_and_work_areas(rt: HostRuntime) {
        assert_eq!(rt; refused(Cipher::Aes, &[1; 15], &mut [5; 177]), Some(7));
        assert_eq!(rt; refused(Cipher::Sm4, &[1; 17], &mut [5; 177]), Some(7));
        assert_eq!(rt; refused(Cipher::Aes, &[1; 15], &mut []), Some(7));
        assert_eq!(rt; refused(Cipher::Aes, &[1; 16], &mut []), Some(8));
        assert_eq!(rt; refused(Cipher::Sm4, &[1; 16], &mut [5; 175]), Some(8));
        assert_eq!(rt; refused(Cipher::Aes, &[1; 16], &mut [5; 176]), None);
        assert_eq!(rt; refused(Cipher::Sm4, &[1; 16], &mut [5; 177]), None);
    }

    // What the work area holds after an accepted key and after a refused one.
    #[test]
    fn work_area(rt: HostRuntime) {
        let mut work = [5u8; 177];
        assert!(rt; Schedule::new(&Direct(BoxA), Cipher::Aes, &KEY[..15], &mut work).is_err());
        assert!(rt; work == [5u8; 177]);
        assert!(rt; Schedule::new(&Direct(BoxA), Cipher::Aes, &KEY, &mut work).is_ok());
        assert!(rt; work[0] == 0 && work[15] == 15 && work[176] == 5);
    }

    // A sector that is worked twice is the first one.
    #[test]
    fn twice(rt: HostRuntime) -> Result<(), Fail> {
        let mut bytes = [65u8; 40];
        let keys = Schedule::new(&Direct(BoxS), Cipher::Sm4, &KEY, &mut [0; 176])?;
        work_sector(&Direct(BoxS), &keys, 1, 9, &mut bytes)?;
        assert!(rt; bytes != [65u8; 40]);
        work_sector(&Direct(BoxS), &keys, 1, 9, &mut bytes)?;
        assert!(rt; bytes == [65u8; 40]);
        Ok(())
    }
}
