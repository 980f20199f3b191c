//! Which versions are worth work: how likely a version is to survive, which of the ready ones are picked, and
//! which child a version gets next. What callers see stands in `specs/Picking.antt`.
#![tactic(auto)]

mod key;
mod labelling;
mod picking;
mod surviving;

pub use labelling::next_label;
pub use picking::pick;
use std::alloc::AllocError;
pub use surviving::{survival, survival_with};

/// Want of memory. Any call that allocates may answer it.
pub type Memory = AllocError;
