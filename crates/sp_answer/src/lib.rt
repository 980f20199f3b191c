//! What a call answers: a status with its number and its line, and the promise that every command keeps, whatever
//! words it has and whatever it comes to. What a command comes to is a parameter of the promise, which stands in
//! `specs/Promise.antt`.
#![tactic(auto)]

mod status;
mod telling;
mod written;

pub use status::Status;
use std::alloc::AllocError;
pub use telling::tell;
pub use written::Written;

/// Want of memory. Any call that allocates may answer it.
pub type Memory = AllocError;
