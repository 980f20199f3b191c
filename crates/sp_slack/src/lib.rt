//! Events that come out of order by up to a slack of time: they are held back until none that isn't late can come
//! before them, and are given in the order of time. Which these are stands in `specs/HeldBack.antt`, what a slack is to
//! its callers in `specs/Standing.antt`.
#![tactic(auto)]

mod late;
pub mod law;
mod slack;
mod waiting;

pub use late::{LateRule, Offered};
pub use law::{slacked_events, slacked_grows};
pub use slack::Slack;
