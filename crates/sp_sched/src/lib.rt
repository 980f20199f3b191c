//! Schedules: lists of steps as texts, read and printed. What a schedule is stands in `specs/Schedules.antt`.
#![tactic(auto)]

mod cut;
mod fault;
mod label;
pub mod law;
mod line;
mod number;
mod print;
mod read;
mod step;

pub use fault::SchedFault;
pub use law::one_schedule;
pub use print::print_schedule;
pub use read::read_schedule;
use std::alloc::AllocError;
pub use step::TraceStep;

/// Want of memory. Any call that allocates may answer it.
pub type Memory = AllocError;
