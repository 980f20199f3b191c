//! The splitter: it owns the core and takes all its steps but the readings. A turn brings home what was read,
//! rolls what is in conflict, finishes windows, makes versions and leases them by their chances; each stage is a
//! module of its own. What a turn comes to stands in `specs/Turning.antt`.
#![tactic(auto)]

mod breeding;
mod counting;
mod dropping;
mod finishing;
mod gathering;
mod guessing;
mod law;
mod learning;
mod lending;
mod planting;
mod posting;
mod rolling;
mod splitter;
mod turning;
mod unheard;

pub use learning::learn;
pub use splitter::Splitter;
use std::alloc::AllocError;
pub use unheard::Unheard;

/// Want of memory. Any call that allocates may answer it, and says what stands after it.
pub type Memory = AllocError;
