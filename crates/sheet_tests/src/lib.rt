// Tests of the check, the reader and the run of sheets on examples.
#![tactic(auto)]

#[cfg(test)]
mod tests {
    use ciphers::keys::Cipher;
    use runs::run::run;
    use sheets::check::check_sheet;
    use sheets::faults::ReadError;
    use sheets::read::read_sheet;
    use std::alloc::{AllocError, Global};
    use std::test::Fail;
    use watch::side::Side;

    // What a sheet is answered by: the count of its sectors, or the refusal's number and place.
    type Answer = Result<usize, (u8, usize)>;

    const SHEETS: [(&str, Answer); 28] = [
        ("", Err((14, 0))),
        (" \n  ", Err((14, 4))),
        ("0 0 0", Ok(0)),
        ("\n00  0\n0 ", Ok(0)),
        ("0 0", Err((14, 3))),
        ("0\t0 0 0", Err((14, 0))),
        ("0 0\r 0", Err((14, 2))),
        ("0 0 0\0", Err((14, 4))),
        ("0 0 0 é", Err((15, 6))),
        ("0 0 é", Err((14, 4))),
        ("0 0 0 x", Err((15, 6))),
        ("0 0 0 0", Err((15, 6))),
        ("0 0 x y", Err((14, 4))),
        ("65", Err((14, 0))),
        ("100", Err((14, 0))),
        ("065", Err((14, 0))),
        ("64", Err((14, 2))),
        ("1 H 11B 0 0", Ok(0)),
        ("1 h 11B 0 0", Err((14, 2))),
        ("1 HD 11B 0 0", Err((14, 2))),
        ("1 H 11b 0 0", Err((14, 4))),
        ("1 H 11 0 0", Err((14, 4))),
        ("1 H 011B 0 0", Err((14, 4))),
        ("0 1 D B 00 0", Err((14, 6))),
        ("0 1 D S 000102030405060708090A0B0C0D0E0F 0", Ok(0)),
        ("0 1 D S 000102030405060708090A0B0C0D0E0 0", Err((14, 8))),
        ("0 0 1 H 00F", Err((14, 8))),
        ("0 0 2 H 00 D FF", Ok(2)),
    ];

    fn answer(heap: Global, sheet: &[u8]) -> Result<Answer, AllocError> {
        match read_sheet(heap, sheet) {
            Ok(read) => Ok(Ok(read.sectors.len())),
            Err(ReadError::Bad(fault)) => Ok(Err((fault.refusal.number(), fault.place))),
            Err(ReadError::NoMemory) => Err(AllocError),
        }
    }

    // What a check of a sheet answers.
    fn checked(sheet: &[u8]) -> Result<(), (u8, usize)> {
        check_sheet(sheet).map_err(|fault| (fault.refusal.number(), fault.place))
    }

    #[test]
    fn examples(rt: HostRuntime) -> Result<(), Fail> {
        for (sheet, expected) in SHEETS {
            assert_eq!(rt; answer(rt.alloc(), sheet.as_bytes())?, expected, "{sheet}");
            assert_eq!(rt; checked(sheet.as_bytes()), expected.map(|_| ()), "{sheet}");
        }
        Ok(())
    }

    // Three counts, and blanks up to the longest sheet or one byte past it.
    #[test]
    fn longest(rt: HostRuntime) -> Result<(), Fail> {
        let mut sheet = [b' '; 16385];
        sheet[..5].copy_from_slice(b"0 0 0");
        assert_eq!(rt; answer(rt.alloc(), &sheet[..16384])?, Ok(0));
        assert_eq!(rt; answer(rt.alloc(), &sheet)?, Err((13, 16384)));
        assert_eq!(rt; checked(&sheet[..16384]), Ok(()));
        assert_eq!(rt; checked(&sheet), Err((13, 16384)));
        Ok(())
    }

    // A sector of 512 digits, and one of 514.
    #[test]
    fn sectors(rt: HostRuntime) -> Result<(), Fail> {
        let mut sheet = [b'A'; 522];
        sheet[0..8].copy_from_slice(b"0 0 1 H ");
        assert_eq!(rt; answer(rt.alloc(), &sheet[..520])?, Ok(1));
        assert_eq!(rt; answer(rt.alloc(), &sheet)?, Err((14, 8)));
        assert_eq!(rt; checked(&sheet[..520]), Ok(()));
        assert_eq!(rt; checked(&sheet), Err((14, 8)));
        Ok(())
    }

    #[test]
    fn entries(rt: HostRuntime) -> Result<(), Fail> {
        let text = "1 H 1F5 1 D A 000102030405060708090A0B0C0D0E0F 1 H 41FE";
        let sheet = read_sheet(rt.alloc(), text.as_bytes())?;
        assert!(rt; sheet.fits.len() == 1 && sheet.keys.len() == 1 && sheet.sectors.len() == 1);
        assert!(rt; sheet.fits[0].side == Side::First && sheet.fits[0].octic == 0x1f5);
        assert!(rt; sheet.keys[0].side == Side::Second && sheet.keys[0].cipher == Cipher::Aes);
        assert_eq!(rt;
            sheet.keys[0].key,
            [0, 1, 2, 3, 4, 5, 6, 7, 8, 9, 10, 11, 12, 13, 14, 15]
        );
        assert!(rt;
            sheet.sectors[0].side == Side::First
                && sheet.sectors[0].bytes.as_slice() == [0x41, 0xfe].as_slice()
        );
        Ok(())
    }

    // What a sheet prints.
    fn printed(heap: Global, sheet: &str) -> Result<String, AllocError> {
        format!(in heap; "{}", run(heap, sheet.as_bytes())?)
    }

    // Both ends are fitted to 11B and hold the same key, and H sends one byte to D; and a bad sheet prints the line of its refusal.
    #[test]
    fn lines(rt: HostRuntime) -> Result<(), Fail> {
        let small =
            "2 H 11B D 11B 2 H A 000102030405060708090A0B0C0D0E0F D A 000102030405060708090A0B0C0D0E0F 1 H 41";
        let text = printed(rt.alloc(), small)?;
        assert_eq!(rt; text.as_str(), "F H 0\nF D 0\nK H 0\nK D 0\nS H 0 0 0 Y\n");
        assert_eq!(rt; printed(rt.alloc(), "0 0 x")?.as_str(), "E 14 4\n");
        Ok(())
    }
}
