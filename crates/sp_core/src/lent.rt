ghost use Rattle.std.specs.Prelude.{◌≡◌, IfOk, map, option_copied};
ghost use Rattle.std.specs.Option.{option_map};
ghost use Rattle.sp_group.specs.Machine.{ticket_at};
ghost use Rattle.sp_core.specs.Carrying.{ticket_of};

use crate::Memory;
use sp_base::Numbers;
use std::alloc::Global;

/// What went out under a ticket.
#[derive(Drop)]
pub struct Lent {
    /// The ticket's number, from 1.
    pub ticket: u64,
    /// The version to which it was lent.
    pub version: u64,
    /// The number of the first event lent; where none was lent, the number after the last one read.
    pub first: u32,
    /// How many events were lent.
    pub count: u32,
    /// The numbers of those of them that are to be skipped.
    pub snapshot: Numbers,
    /// Whether the window's closing was lent behind them.
    pub closes: bool,
}

impl Lent {
    // The same once more.
    pub(crate) fn copy(&self, alloc: Global) -> Result<Lent, Memory>
        ensures { IfOk result (λ copy. ticket_of copy ≡ ticket_of self.now) }
    {
        Ok(Lent {
            ticket: self.ticket,
            version: self.version,
            first: self.first,
            count: self.count,
            snapshot: self.snapshot.copy(alloc)?,
            closes: self.closes,
        })
    }
}

// What went out under the ticket of a number; None exactly where it is not out.
pub(crate) fn lent_under(tickets: &[Lent], ticket: u64) -> Option<&Lent>
    ensures { option_map ticket_of (option_copied result)
        ≡ ticket_at (map ticket_of tickets.now) ticket }
{
    tickets.iter().find(|lent| lent.ticket == ticket)
}
