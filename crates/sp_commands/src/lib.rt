//! What commands are and come to, for all of them, with the laws of it; and those that need no engine by threads:
//! `plain`, window by window, `trace`, the machine as a schedule steps it, and `check`, a listing held against the
//! query over the input; and the texts of a graph. What words promise is `Promise` of `specs/Outcome.antt`.
#![tactic(auto)]

mod asked;
mod checked;
mod ends;
mod given;
mod graphed;
pub mod law;
mod listed;
mod output;
mod scheduled;
mod sorted;
mod texts;
mod windowed;

pub use asked::{Check, Graph, Lateness, Trace, place_of};
pub use checked::check;
pub use ends::{late_status, status_of, status_of_refusal, written_status};
pub use given::{Given, read_events};
pub use graphed::{GraphTask, graph_task, second_given};
pub use law::{
    checks_complete, completes, drills_complete, one_outcome, plans_match_alike, plans_run_alike,
    punctual_runs,
};
pub use listed::write_proofs;
pub use output::write_lines;
pub use scheduled::trace;
pub use windowed::{plain, shared};
