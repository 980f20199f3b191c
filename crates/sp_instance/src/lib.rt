//! Instances: each has a seat at a hub, takes jobs there, reads them, and puts their pieces. What it is to
//! do a job, and what an instance did with those that it took, stands in `specs/Doing`.
#![tactic(auto)]

mod doing;
mod gate;
mod working;

pub use doing::do_job;
pub use gate::{Gate, OpenGate};
pub use working::{work, work_all, work_some};
