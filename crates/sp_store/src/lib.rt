//! Values under ids that rise by one and are never used again, at most so many at a time. In `specs/` stands
//! what a store is to its callers (`Stored`).
#![tactic(auto)]

mod fault;
mod place;
mod store;

pub use fault::PutFault;
use std::alloc::AllocError;
pub use store::Store;

/// Want of memory. Any call that allocates may answer it, and says what stands after it.
pub type Memory = AllocError;
