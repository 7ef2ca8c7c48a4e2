// An end of a link, over any ring.
ghost use Rattle.std.specs.Prelude.{◌≡◌, IfErr};
ghost use Rattle.ends.specs.Model.{Calls, made, model};
ghost use Rattle.ends.specs.Model.Call.{fitting, keying, drawing, sealing, opening, wiping, telling, trailing, boxing};

use crate::fitted::{Fitted, Loaded};
use crate::records::{Answer, Told};
use crate::ticket::Ticket;
use crate::walk::inverses_by;
use crate::work::Work;
use boxes::Substitute;
use refusals::Refusal;
use rings::Ring;
use towers::pair::Pair;
use towers::trail::{Trail, trail_of};

#[derive(Drop)]
pub struct End<R> {
    ring: R,
    name: u16,
    next: u64,
    fitted: Option<Fitted>,
    loaded: Option<Loaded>,
}

impl<R: Ring> End<R> {
    /// Makes an end over `ring` under the name `name`: the ticket that it draws first has the number `first`, and each next one the
    /// number after. It has no fit and no key.
    ///
    /// A counter block is made of name, number and index alone, and an end knows nothing of the ends before it. Made anew with the same
    /// key, name and first number, it repeats counter blocks, and whoever has two sectors under one block learns their exclusive or. So
    /// whoever makes an end again, as after a power cut, gives it a first number that was never reached, above every number that was
    /// drawn under that name and key, or a new key.
    pub fn new(ring: R, name: u16, first: u64) -> Self
        ensures { model R.Ring.WIDTH R.Ring.mul result ≡ made R.Ring.WIDTH (R.Ring.mul ring) name first }
    {
        End {
            ring,
            name,
            next: first,
            fitted: None,
            loaded: None,
        }
    }

    /// Keeps a pair for the octic, and forgets the key. Answers its c and ones. Refused with 1, 2 or 3, it leaves the end as it was.
    pub fn fit(&mut self, octic: u16) -> Result<Answer, Refusal>
        ensures steps { Calls R.Ring.WIDTH R.Ring.mul self.old (fitting octic result) self.new }
        ensures unaltered { IfErr result (λ _. self.new ≡ self.old) }
    {
        let pair = towers::fit(&self.ring, octic)?;
        let inverses = inverses_by(&self.ring, octic, &pair);
        self.fitted = Some(Fitted { pair, inverses });
        self.wipe();
        Ok(Answer::from(pair))
    }

    /// Loads a key of 16 bytes, by way of a work area of at least 176 bytes, all of which is zero afterwards in any case. Refused with 4,
    /// 5, 6, 7 or 8, it leaves the end as it was, with the key that it held.
    // Letter, key and work area stand as the call has them.
    pub fn key(&mut self, letter: char, key: &[u8], work: &mut [u8]) -> Result<(), Refusal>
        ensures steps { Calls R.Ring.WIDTH R.Ring.mul self.old (keying letter key.now work.old work.new result) self.new }
        ensures unaltered { IfErr result (λ _. self.new ≡ self.old) }
    {
        let guard = Work { bytes: work };
        let fitted = self.fitted.as_ref().ok_or(Refusal::NoFit)?;
        self.loaded = Some(fitted.load(letter, key, guard.bytes)?);
        Ok(())
    }

    /// Draws a ticket with the end's name and next number, which then rises by 1. Refused with 12, it leaves the end as it was.
    pub fn draw(&mut self) -> Result<Ticket, Refusal>
        ensures steps { Calls R.Ring.WIDTH R.Ring.mul self.old (drawing result) self.new }
        ensures unaltered { IfErr result (λ _. self.new ≡ self.old) }
    {
        if self.next == u64::MAX {
            return Err(Refusal::NumbersUsedUp);
        }
        let number = self.next;
        self.next = number + 1;
        Ok(Ticket {
            name: self.name,
            number,
        })
    }

    /// Seals a sector of 1 to 4,096 bytes in place, under a ticket of this end, and spends the ticket, accepted or not. Refused with 9, 10
    /// or 11, it leaves the bytes as they were.
    pub fn seal(&self, ticket: Ticket, bytes: &mut [u8]) -> Result<(), Refusal>
        ensures { Calls R.Ring.WIDTH R.Ring.mul self.now (sealing ticket bytes.old bytes.new result) self.now }
    {
        let Ticket { name, number } = ticket;
        let key = self.loaded.as_ref().ok_or(Refusal::NoKey)?;
        if name != self.name {
            return Err(Refusal::OtherName);
        }
        key.work(name, number, bytes)
    }

    /// Opens a sector of 1 to 4,096 bytes in place, under any name and number. Refused with 9 or 11, it leaves the bytes as they were.
    pub fn open(&self, name: u16, number: u64, bytes: &mut [u8]) -> Result<(), Refusal>
        ensures { Calls R.Ring.WIDTH R.Ring.mul self.now (opening name number bytes.old bytes.new result) self.now }
    {
        let loaded = self.loaded.as_ref().ok_or(Refusal::NoKey)?;
        loaded.work(name, number, bytes)
    }

    /// Forgets the key, and keeps the fit and the number.
    pub fn wipe(&mut self)
        ensures { Calls R.Ring.WIDTH R.Ring.mul self.old wiping self.new }
    {
        self.loaded = None;
    }

    /// Fills in the kept pair: its c, its ones and 16 columns, those of its map first. Refused with 4, it leaves the record as it was.
    pub fn tell(&self, told: &mut Told) -> Result<(), Refusal>
        ensures { Calls R.Ring.WIDTH R.Ring.mul self.now (telling told.old told.new result) self.now }
    {
        let fitted = self.fitted.as_ref().ok_or(Refusal::NoFit)?;
        *told = Told::from(fitted.pair);
        Ok(())
    }

    /// A byte's tower code, that code's tower inverse and the byte that the map makes of it. Refused with 4.
    pub fn trail(&self, byte: u8) -> Result<Trail, Refusal>
        ensures { Calls R.Ring.WIDTH R.Ring.mul self.now (trailing byte result) self.now }
    {
        let fitted = self.fitted.as_ref().ok_or(Refusal::NoFit)?;
        Ok(trail_of(&self.ring, &fitted.pair, byte))
    }

    /// The byte that the letter's box makes of a byte. Refused with 4, 5 or 6.
    pub fn box_byte(&self, letter: char, byte: u8) -> Result<u8, Refusal>
        ensures { Calls R.Ring.WIDTH R.Ring.mul self.now (boxing letter byte result) self.now }
    {
        let fitted = self.fitted.as_ref().ok_or(Refusal::NoFit)?;
        let boxed = fitted.boxed_for(letter)?;
        Ok(boxed.substitute(byte))
    }
}
