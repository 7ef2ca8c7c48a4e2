// The boxes that the ciphers substitute bytes by.
#![tactic(auto)]

ghost use Rattle.std.specs.Prelude.{◌≡◌, ℕ};

pub mod direct;
pub mod sbox;

// A way to work out a box: `boxed` is the box.
pub trait Substitute {
    ghost boxed: { Self → ℕ → ℕ };

    fn substitute(&self, x: u8) -> u8
        ensures { result ≡ boxed self.now x };
}
