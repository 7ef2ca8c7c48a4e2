// Tests of the rings on examples.
#![tactic(auto)]

#[cfg(test)]
mod tests {
    use rings::Ring;
    use rings::pairing::Pairing;
    use rings::poly::{Four, Octic, Quartic};
    use rings::powers::Powers13;

    // A ring's width.
    fn same_width<R: Ring>(width: u32) -> bool {
        R::WIDTH == width
    }

    #[test]
    fn widths(rt: HostRuntime) {
        assert!(rt; same_width::<Four>(2));
        assert!(rt; same_width::<Quartic>(4));
        assert!(rt; same_width::<Powers13>(4));
        assert!(rt; same_width::<Octic>(8));
        assert!(rt; same_width::<Pairing<Four>>(4));
        assert!(rt; same_width::<Pairing<Quartic>>(8));
        assert!(rt; same_width::<Pairing<Powers13>>(8));
        assert!(rt; same_width::<Pairing<Octic>>(8));
        assert!(rt; same_width::<Pairing<Pairing<Four>>>(8));
        assert!(rt; same_width::<Pairing<Pairing<Pairing<Four>>>>(8));
    }

    // The two forms of ring 13 agree, whatever stands above the low four bits.
    #[test]
    fn two_forms(rt: HostRuntime) {
        for a in 0..=255u8 {
            assert!(rt; Quartic::Ring13.inverse(a) == Powers13.inverse(a));
            assert!(rt; (0..16).all(|b| Quartic::Ring13.product(a, b) == Powers13.product(a, b)));
            assert!(rt; (0..16).all(|b| Quartic::Ring13.product(b, a) == Powers13.product(a, b)));
        }
    }

    fn invertible(number: u16) -> usize {
        let ring = Octic::new(number);
        (0..=255u8).filter(|a| ring.inverse(*a).is_some()).count()
    }

    // As many codes have an inverse as are prime to the modulus, counted apart by Euclid's algorithm.
    #[test]
    fn reducible_octics(rt: HostRuntime) {
        assert_eq!(rt; invertible(0x100), 128);
        assert_eq!(rt; invertible(0x1fe), 64);
        assert_eq!(rt; invertible(0x11b), 255);
        // Of the number the low eight bits count, with bit 8 set.
        assert_eq!(rt; invertible(0xfe1b), 255);
    }

    // Of a constant the low bits count.
    #[test]
    fn constants(rt: HostRuntime) {
        let low = Pairing::new(Quartic::Ring13, 0x0c);
        let high = Pairing::new(Quartic::Ring13, 0x5c);
        assert!(rt; (0..=255u8).all(|a| low.product(a, 0x9d) == high.product(a, 0x9d)));
        assert!(rt; (0..=255u8).all(|a| low.norm(a) == high.norm(a)));
        // (V Y) (V Y) = (V + 1) (Y + V) = (V + 1) Y + 1
        assert_eq!(rt; Pairing::new(Four, 6).product(0x8, 0x8), 0xd);
    }

    // Over width 8 the pairing is the ring below.
    #[test]
    fn pairing_of_octic(rt: HostRuntime) {
        let field = Octic::new(0x11b);
        let pairing = Pairing::new(field, 7);
        assert!(rt; pairing.inverse(0x53) == Some(0xca));
        assert!(rt; field.inverse(0x53) == Some(0xca));
        assert_eq!(rt; pairing.product(0x57, 0x83), 0xc1);
        assert_eq!(rt; pairing.norm(0x57), 0x57);
    }
}
