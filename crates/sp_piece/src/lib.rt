//! Jobs, which carry all that a reading of lent events needs, and pieces, which do the reading, event by
//! event or all that is left at once, or take up one of the same that was kept. Where a reading leads, and what
//! is told of it, stands in `specs/Reading.antt`.
#![tactic(auto)]

mod done;
mod going;
mod job;
pub mod law;
mod own;
mod piece;
mod reading;
mod stepped;
mod telling;

pub use done::Done;
pub use job::{Job, consumes};
pub use law::{readings_tell_matches, same_plans_read_alike};
pub use piece::Piece;
use std::alloc::AllocError;
pub use stepped::Stepped;

/// Want of memory. Any call that allocates may answer it, and says what stands after it.
pub type Memory = AllocError;
