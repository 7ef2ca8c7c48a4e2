// A ticket is the right to seal one sector under a name and a number.
ghost use Rattle.std.specs.Prelude.{◌≡◌};

// It must be spent: it is neither `Drop` nor `Copy`, and no other crate makes one.
pub struct Ticket {
    pub(super) name: u16,
    pub(super) number: u64,
}

impl Ticket {
    // The name of the end that gave it.
    pub fn name(&self) -> u16
        ensures { result ≡ self.now.name }
    {
        self.name
    }

    // Its number, which that end gave to no other.
    pub fn number(&self) -> u64
        ensures { result ≡ self.now.number }
    {
        self.number
    }
}

// Spends a ticket without sealing, and answers the number that is never sealed with.
pub fn burn(ticket: Ticket) -> u64
    ensures { result ≡ ticket.number }
{
    let Ticket { name: _, number } = ticket;
    number
}
