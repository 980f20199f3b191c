use crate::found::Found;
use crate::run::Run;

/// The open runs of a window, in the order of their start, and what those that matched come to, in the order in
/// which they did.
#[derive(Drop)]
pub(crate) struct Runs {
    pub(crate) open_runs: Vec<Run>,
    pub(crate) found: Vec<Found>,
}
