use crate::setting::Setting;
use sp_chance::Predictor;
use sp_plan::Plan;
use sp_ports::Stop;
use sp_split::Why;
use std::sync::Arc;

/// Trees that drive parts side by side: each has a predictor, by which they are counted, and a plan of its own, so
/// that no two of them count the owners of one.
#[derive(Drop)]
pub struct Trees {
    /// By which the parts were made. No tree runs by it.
    pub plan: Arc<Plan>,
    /// Those by which the trees run, in the order of the predictors: at least as many. Each finds what `plan` does.
    pub own: Vec<Arc<Plan>>,
    pub setting: Setting,
    /// Why the reading of the input ended. A part that is open stops for this reason.
    pub stop: Stop,
    /// At least one.
    pub predictors: Vec<Box<dyn Predictor>>,
}

/// What the driving of parts ended with.
#[derive(Drop)]
pub struct Forest {
    /// Why it ended: `Whole`, `Stopped` for the reason for which reading ended, or `Refused`.
    pub why: Why,
    /// How many matches the outlet took.
    pub matches: u64,
    /// The predictors, in their places. None where the outlet refused a match.
    pub predictors: Vec<Box<dyn Predictor>>,
}
