//! The splitter: it drives a core from an intake to an outlet. What a run comes to stands in `specs/Driving.antt`.
#![tactic(auto)]

mod alone;
mod attending;
mod crew;
mod driver;
mod driving;
mod ended;
mod feeding;
mod fitting;
mod handing;
mod joining;
mod law;
mod lent;
mod office;
mod relay;
mod running;
mod serving;
mod stopping;
mod turning;
mod working;

pub use crew::Crew;
pub use driving::drive;
pub use ended::{Ended, Went, Why};
pub use sp_splitter::Splitter;

/// Want of memory. Any call that allocates may answer it, and says what stands after it.
pub type Memory = std::alloc::AllocError;
