use crate::Label;
use sp_plan::Event;

/// A step of the machine. Versions and tickets are named by their numbers, from 1.
#[derive(Drop)]
pub enum Step {
    /// The next event of the input.
    Feed(Event),
    /// The end of the input.
    End,
    /// A fresh version: below `parent`, of the window behind the parent's, under the guess that of the
    /// parent's open groups exactly those of the label complete; or the root, with no parent and the empty
    /// label.
    Spawn { parent: Option<u64>, label: Label },
    /// The next unread events of a version's window, at most `count`, 1 to 1,024, go out for reading.
    Lease { version: u64, count: u32 },
    /// The holder of a ticket reads the next event that was lent, or the closing behind the last one.
    Event { ticket: u64 },
    /// A ticket ends, and what was read comes home to its version, where that is live.
    Return { ticket: u64 },
    /// A version that is in conflict begins anew.
    Roll { version: u64 },
    /// The root, which is done, emits its matches, and its remaining child is the root.
    Finish,
}

/// An entry of a journal: a step, and how many times it was done one after another.
#[derive(Drop)]
pub struct Entry {
    pub step: Step,
    pub times: u32,
}
