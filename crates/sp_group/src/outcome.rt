/// How a consumption group, which is the events that an open run binds to consumed names, was decided.
#[derive(Clone, Copy, Drop, PartialEq, Eq)]
pub enum Outcome {
    /// Its run has matched, and all of its events are used.
    Completed,
    /// Its run was abandoned, and none of its events is used.
    Abandoned,
}
