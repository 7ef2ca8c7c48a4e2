// A watch over two ends: the seven calls pass through it, and each log of them shows what is promised.
ghost use Rattle.std.specs.Prelude.{◌≡◌, IfErr};
ghost use Rattle.ends.specs.Model.Call.{fitting, keying, drawing, sealing, opening, wiping, telling};
ghost use Rattle.watch.specs.Log.{entry};
ghost use Rattle.watch.specs.Shows.{EachCallShows, EveryLogShows};
ghost use Rattle.watch.specs.Watched.{Extends, Passes, Starts, fresh, kind};

use super::side::Side;
use ends::end::End;
use ends::records::{Answer, Told};
use ends::ticket::Ticket;
use refusals::Refusal;
use rings::Ring;

// Two ends, each over a ring of its own: they are of different types, so no one closure takes either, and each call has its match.
#[derive(Drop)]
pub struct Watch<X, Y> {
    one: End<X>,
    two: End<Y>,
}

// Every log of two ends of different names shows what is promised.
fn every_log_shows()
    ensures { EveryLogShows }
{}

// A call at one of two ends goes on from every log of theirs to one that shows what is promised.
fn each_call_shows()
    ensures { EachCallShows }
{}

impl<X: Ring, Y: Ring> Watch<X, Y> {
    /// Makes two ends, each over its own ring, under its name and with its first number. Whatever calls follow, every log of two ends of
    /// different names shows the promise. What `End::new` says of the first number of an end that is made again holds of both.
    pub fn new(x: X, name_x: u16, first_x: u64, y: Y, name_y: u16, first_y: u64) -> Self
        ensures starts { Starts (kind X.Ring.WIDTH X.Ring.mul) (kind Y.Ring.WIDTH Y.Ring.mul) (fresh (kind X.Ring.WIDTH X.Ring.mul) x name_x first_x) (fresh (kind Y.Ring.WIDTH Y.Ring.mul) y name_y first_y) result }
        ensures promise { EveryLogShows }
    {
        every_log_shows();
        Watch {
            one: End::new(x, name_x, first_x),
            two: End::new(y, name_y, first_y),
        }
    }

    /// Passes a fit on to an end. A refusal leaves the watch as it was.
    pub fn fit(&mut self, side: Side, octic: u16) -> Result<Answer, Refusal>
        ensures goes { Passes (kind X.Ring.WIDTH X.Ring.mul) (kind Y.Ring.WIDTH Y.Ring.mul) self.old (entry side (fitting octic result)) self.new }
        ensures onward { Extends (kind X.Ring.WIDTH X.Ring.mul) (kind Y.Ring.WIDTH Y.Ring.mul) self.old (entry side (fitting octic result)) self.new }
        ensures unaltered { IfErr result (λ _. self.new ≡ self.old) }
    {
        each_call_shows();
        match side {
            Side::First => self.one.fit(octic),
            Side::Second => self.two.fit(octic),
        }
    }

    /// Passes a key on to an end. All of the work area is zero afterwards in any case; a refusal leaves the watch as it was.
    pub fn key(
        &mut self,
        side: Side,
        letter: char,
        key: &[u8],
        work: &mut [u8],
    ) -> Result<(), Refusal>
        ensures goes { Passes (kind X.Ring.WIDTH X.Ring.mul) (kind Y.Ring.WIDTH Y.Ring.mul) self.old (entry side (keying letter key.now work.old work.new result)) self.new }
        ensures onward { Extends (kind X.Ring.WIDTH X.Ring.mul) (kind Y.Ring.WIDTH Y.Ring.mul) self.old (entry side (keying letter key.now work.old work.new result)) self.new }
        ensures unaltered { IfErr result (λ _. self.new ≡ self.old) }
    {
        each_call_shows();
        match side {
            Side::First => self.one.key(letter, key, work),
            Side::Second => self.two.key(letter, key, work),
        }
    }

    /// Passes a draw on to an end. A refusal leaves the watch as it was.
    pub fn draw(&mut self, side: Side) -> Result<Ticket, Refusal>
        ensures goes { Passes (kind X.Ring.WIDTH X.Ring.mul) (kind Y.Ring.WIDTH Y.Ring.mul) self.old (entry side (drawing result)) self.new }
        ensures onward { Extends (kind X.Ring.WIDTH X.Ring.mul) (kind Y.Ring.WIDTH Y.Ring.mul) self.old (entry side (drawing result)) self.new }
        ensures unaltered { IfErr result (λ _. self.new ≡ self.old) }
    {
        each_call_shows();
        match side {
            Side::First => self.one.draw(),
            Side::Second => self.two.draw(),
        }
    }

    /// Passes a seal on to an end, which spends the ticket, accepted or not. A refusal leaves the bytes as they were.
    pub fn seal(&self, side: Side, ticket: Ticket, bytes: &mut [u8]) -> Result<(), Refusal>
        ensures goes { Passes (kind X.Ring.WIDTH X.Ring.mul) (kind Y.Ring.WIDTH Y.Ring.mul) self.now (entry side (sealing ticket bytes.old bytes.new result)) self.now }
        ensures onward { Extends (kind X.Ring.WIDTH X.Ring.mul) (kind Y.Ring.WIDTH Y.Ring.mul) self.now (entry side (sealing ticket bytes.old bytes.new result)) self.now }
    {
        each_call_shows();
        match side {
            Side::First => self.one.seal(ticket, bytes),
            Side::Second => self.two.seal(ticket, bytes),
        }
    }

    /// Passes an open on to an end. A refusal leaves the bytes as they were.
    pub fn open(&self, side: Side, name: u16, number: u64, bytes: &mut [u8]) -> Result<(), Refusal>
        ensures goes { Passes (kind X.Ring.WIDTH X.Ring.mul) (kind Y.Ring.WIDTH Y.Ring.mul) self.now (entry side (opening name number bytes.old bytes.new result)) self.now }
        ensures onward { Extends (kind X.Ring.WIDTH X.Ring.mul) (kind Y.Ring.WIDTH Y.Ring.mul) self.now (entry side (opening name number bytes.old bytes.new result)) self.now }
    {
        each_call_shows();
        match side {
            Side::First => self.one.open(name, number, bytes),
            Side::Second => self.two.open(name, number, bytes),
        }
    }

    /// Passes a wipe on to an end.
    pub fn wipe(&mut self, side: Side)
        ensures goes { Passes (kind X.Ring.WIDTH X.Ring.mul) (kind Y.Ring.WIDTH Y.Ring.mul) self.old (entry side wiping) self.new }
        ensures onward { Extends (kind X.Ring.WIDTH X.Ring.mul) (kind Y.Ring.WIDTH Y.Ring.mul) self.old (entry side wiping) self.new }
    {
        each_call_shows();
        match side {
            Side::First => self.one.wipe(),
            Side::Second => self.two.wipe(),
        }
    }

    /// Passes a tell on to an end. A refusal leaves the record as it was.
    pub fn tell(&self, side: Side, told: &mut Told) -> Result<(), Refusal>
        ensures goes { Passes (kind X.Ring.WIDTH X.Ring.mul) (kind Y.Ring.WIDTH Y.Ring.mul) self.now (entry side (telling told.old told.new result)) self.now }
        ensures onward { Extends (kind X.Ring.WIDTH X.Ring.mul) (kind Y.Ring.WIDTH Y.Ring.mul) self.now (entry side (telling told.old told.new result)) self.now }
    {
        each_call_shows();
        match side {
            Side::First => self.one.tell(told),
            Side::Second => self.two.tell(told),
        }
    }
}
