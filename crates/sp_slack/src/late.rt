/// What becomes of an event that comes too late.
#[derive(Clone, Copy, Debug, Drop, PartialEq, Eq)]
pub enum LateRule {
    /// It ends the reading of the input.
    Refuse,
    /// It is passed over.
    Drop,
}

/// What became of an event that was offered.
#[derive(Clone, Copy, Debug, Drop, PartialEq, Eq)]
pub enum Offered {
    Kept,
    /// It comes too late: its time is below the least that may come, and it is not kept.
    Late { now: i64, least: i64 },
}
