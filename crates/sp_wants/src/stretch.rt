/// Runs that follow one another and want the same: each wanted so many events at least before an event, and so many
/// after it.
#[derive(Clone, Copy, PartialEq, Eq, Drop)]
pub struct Stretch {
    pub before: u32,
    pub after: u32,
    /// How many runs these are.
    pub times: usize,
}
