// The predictors of a run.

use sp_chance::Predictor;

/// The predictors of a run, which take one another's place as it goes.
#[derive(Drop)]
pub struct Crew {
    /// The one in work.
    pub first: Box<dyn Predictor>,
    /// Those that follow it, in this order. None of them comes back.
    pub rest: Vec<Box<dyn Predictor>>,
    /// For each so many windows that are finished the next one takes the place of the one in work, as long as there is
    /// one; 0: never.
    pub every: u32,
}
