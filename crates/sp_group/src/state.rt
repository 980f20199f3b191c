use crate::Label;
use sp_base::Numbers;
use sp_plan::Listed;

/// A live version as it is printed.
#[derive(Drop)]
pub struct VersionLine {
    /// Its number, from 1; a version that begins anew gets the next one.
    pub id: u64,
    /// The version of the window before, under whose outcome it was begun; None for the root.
    pub parent: Option<u64>,
    pub window: u32,
    /// The open groups of its parent that it takes to complete.
    pub label: Label,
    /// How many events of its window it has read.
    pub position: u32,
    /// Those of them that it skipped, since they were suppressed for it.
    pub skipped: Numbers,
    /// Whether it has read its window's closing.
    pub done: bool,
    /// The ticket that is out for it.
    pub out: Option<u64>,
    /// Its open groups, by run: each run that binds events to consumed names, with their numbers.
    pub groups: Listed<(u32, Numbers)>,
}

/// A ticket that is out, as it is printed.
#[derive(Drop)]
pub struct TicketLine {
    /// Its number, from 1.
    pub ticket: u64,
    /// The version to which it was lent, which need not be live any more.
    pub version: u64,
    /// The number of the first event lent; where none was lent, the number after the last one read.
    pub first: u32,
    /// How many events were lent.
    pub count: u32,
    /// How many of them were read, the closing not counted.
    pub read: u32,
    /// Those of them that are skipped.
    pub snapshot: Numbers,
    /// Whether the window's closing was lent with them.
    pub closes: bool,
}

/// The state of the machine as it is printed.
#[derive(Drop)]
pub struct State {
    /// How many events were fed.
    pub events: u32,
    /// Whether input has ended.
    pub ended: bool,
    /// How many windows have begun.
    pub windows: u32,
    /// How many windows are finished.
    pub finished: u32,
    /// How many matches were emitted.
    pub emitted: u64,
    /// The numbers of the consumed events.
    pub consumed: Numbers,
    /// The live versions, by rising id.
    pub versions: Listed<VersionLine>,
    /// The tickets that are out, by rising number.
    pub tickets: Listed<TicketLine>,
}
