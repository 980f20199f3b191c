use sp_plan::Match;

/// A finished window.
#[derive(Drop)]
pub struct Emitted {
    /// The window's number, from 1.
    pub window: u32,
    /// Its matches, numbered behind those of the windows before.
    pub matches: Vec<Match>,
    /// The root from now on; None where no version is live.
    pub root: Option<u64>,
}
