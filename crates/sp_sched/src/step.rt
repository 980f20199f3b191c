use sp_group::Label;

/// A line of a schedule. Versions and tickets are named by their numbers, of 1 to 19 digits.
#[derive(Drop)]
pub enum TraceStep {
    /// The next event of the input, if there is one.
    Feed,
    /// The end of the input.
    End,
    /// A fresh version: below `parent`, under the guess that of the parent's open groups exactly those of the
    /// label complete; or the root, with no parent and the empty label.
    Spawn { parent: Option<u64>, label: Label },
    /// The next unread events of a version's window, at most `count`, 1 to 1,024, go out for reading.
    Lease { version: u64, count: u32 },
    /// The holder of a ticket reads the next event that was lent, or the closing behind the last one.
    Event { ticket: u64 },
    /// A ticket ends, and what was read comes home to its version, where that is live.
    Return { ticket: u64 },
    /// A version that is in conflict begins anew.
    Roll { version: u64 },
    /// The root, which is done, emits its matches.
    Finish,
    /// The state is printed; no step is taken.
    State,
}
