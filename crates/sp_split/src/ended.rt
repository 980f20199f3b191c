use crate::Crew;
use sp_core::Core;
use sp_hub::History;
use sp_ports::Stop;

/// Why a run has ended.
#[derive(Clone, Copy, Drop, PartialEq, Eq)]
pub enum Why {
    /// The intake reached the end of its input, and all windows are finished.
    Whole,
    /// The intake stopped before, for this reason, and all windows that its events have closed are finished.
    Stopped(Stop),
    /// The outlet failed at a match.
    Refused,
    /// Out of memory.
    Memory,
}

/// A core that has run, and why it runs no more.
#[derive(Drop)]
pub struct Went {
    pub core: Core,
    pub why: Why,
}

/// What a run ended with.
#[derive(Drop)]
pub struct Ended {
    /// The core as it stands, with the journal of its steps.
    pub core: Core,
    pub why: Why,
    /// What the hub did, nothing where there was none.
    pub history: History,
    /// The predictors that are left: the one in work, and those that have not worked.
    pub crew: Crew,
}
