//! A version of a window as the machine keeps it: how far it has read, what it skipped, its matcher and
//! its matches; and the least event that it read although it is suppressed.
#![tactic(auto)]

pub mod law;
mod search;
mod version;

pub use law::reads_alike;
pub use search::least_unskipped;
use std::alloc::AllocError;
pub use version::Version;

/// Want of memory. Any call that allocates may answer it, and says what stands after it.
pub type Memory = AllocError;
