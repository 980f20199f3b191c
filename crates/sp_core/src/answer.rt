use crate::{Emitted, Lent};

/// What a step of the machine answers where it is not refused.
#[derive(Drop)]
pub enum Answer {
    /// The fed event's number, from 1.
    Fed(u32),
    /// Input has ended.
    Ended,
    /// The new version's id.
    Spawned(u64),
    /// What went out.
    Leased(Lent),
    /// An event was read, or passed over since it is suppressed.
    Read { number: u32, skipped: bool },
    /// The window's closing was read.
    Closed,
    /// What was read is its version's.
    Home,
    /// The version is no longer live, and what was read is lost.
    Stale,
    /// The id with which the version begins anew.
    Rolled(u64),
    /// The window that is finished.
    Finished(Emitted),
}
