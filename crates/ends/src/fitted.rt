// What an end keeps of a fit, and of a key.
use crate::boxed::Boxed;
use crate::inverses::Inverses;
use ciphers::keys::Schedule;
use towers::pair::Pair;

// A fit: the pair that is kept, and the inverses in the octic's ring.
#[derive(Clone, Copy)]
pub struct Fitted {
    pub(super) pair: Pair,
    pub(super) inverses: Inverses,
}

// A key: its schedule, and the box of its cipher.
#[derive(Drop)]
pub struct Loaded {
    pub(super) boxed: Boxed,
    pub(super) schedule: Schedule,
}
