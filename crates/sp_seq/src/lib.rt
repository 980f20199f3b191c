//! The engine that goes through the windows one after another: the windows of the events, the matcher
//! over the events of each window that no earlier match has consumed, and the matches.
//! What the matches are is said by `whole` in `sp_plan/specs/Sequential.antt`.
#![tactic(auto)]

mod engine;
mod found;
mod learning;
mod sweep;
mod window;

pub use engine::plain;
