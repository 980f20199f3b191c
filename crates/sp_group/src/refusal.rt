ghost use Rattle.std.specs.Prelude.{◌≡◌};
ghost use Rattle.sp_group.specs.Codes.{code_of};

/// Why a step of the machine was refused, with the values that tell of it. A refused step changes nothing.
#[derive(Clone, Copy, Debug, Drop, PartialEq, Eq)]
pub enum Refusal {
    /// Input has ended.
    AfterEnd,
    /// No version of this id is live.
    NotLive { version: u64 },
    /// The run, which the label names, has no open group of the parent.
    NotOpen { group: u32 },
    /// This version has the label: a child of the same parent, or the root where a root is asked for.
    LabelTaken { child: u64 },
    /// The window of this number has not begun.
    NoWindow { number: u32 },
    /// As many versions are live as the bound allows.
    Full { live: u32, bound: u32 },
    /// This ticket is out for the version.
    Out { ticket: u64 },
    /// The version read, or was lent, this event, which is suppressed for it.
    Conflict { event: u32 },
    /// The version is in no conflict.
    NoConflict { version: u64 },
    /// There is no further event and no closing to read. Of a version: how many events of its window it
    /// has read; of a ticket: how many of its events were read.
    NothingToRead { position: u32 },
    /// There is no root, or the root is not done; so many windows are finished.
    NotDone { finished: u32 },
    /// So many events are fed, which is the limit.
    TooManyEvents { limit: u32 },
    /// No ticket of this number is out.
    NoTicket { ticket: u64 },
}

impl Refusal {
    /// The printed code, 1 to 13.
    pub fn code(&self) -> u8
        ensures { result ≡ code_of self.now }
    {
        match self {
            Refusal::AfterEnd => 1,
            Refusal::NotLive { .. } => 2,
            Refusal::NotOpen { .. } => 3,
            Refusal::LabelTaken { .. } => 4,
            Refusal::NoWindow { .. } => 5,
            Refusal::Full { .. } => 6,
            Refusal::Out { .. } => 7,
            Refusal::Conflict { .. } => 8,
            Refusal::NoConflict { .. } => 9,
            Refusal::NothingToRead { .. } => 10,
            Refusal::NotDone { .. } => 11,
            Refusal::TooManyEvents { .. } => 12,
            Refusal::NoTicket { .. } => 13,
        }
    }
}
