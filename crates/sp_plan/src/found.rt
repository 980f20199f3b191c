use crate::{Listed, Places};

/// A match of a window.
#[derive(Drop)]
pub struct Match {
    /// The window's number, from 1.
    pub window: u32,
    /// The match's own number, from 1, in the order in which the matches are written.
    pub number: u64,
    /// Each name of the plan that isn't negated, by rising number, with the numbers of the events that it is
    /// bound to.
    pub bound: Listed<(u8, Places)>,
    /// The numbers of the events that the match consumes.
    pub used: Places,
}
