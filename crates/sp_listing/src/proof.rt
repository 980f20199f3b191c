use sp_base::Numbers;
use sp_plan::Match;

/// What a window was read without, what its matches used, and its matches.
#[derive(Drop)]
pub struct WindowProof {
    /// The window's number, from 1.
    pub window: u32,
    /// The numbers of its first and its last event.
    pub first: u32,
    pub last: u32,
    /// Its events that were consumed before it was read.
    pub skipped: Numbers,
    /// The events that its own matches consume.
    pub used: Numbers,
    /// Its matches, in their order.
    pub matches: Vec<Match>,
}
