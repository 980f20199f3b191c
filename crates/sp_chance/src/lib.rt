//! Predictors: how likely it is that so many wanted events come while so many events pass.
#![tactic(auto)]

mod chances;
mod even;
pub mod law;
mod markov;
mod matrix;
mod moves;
mod pairs;
mod powers;
mod predictor;
mod recent;
mod steady;

pub use chances::{Chance, Chances};
pub use even::Even;
pub use law::rows_are_whole;
pub use markov::Markov;
pub use predictor::Predictor;
pub use steady::Steady;
