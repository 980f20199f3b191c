//! Matchers that several hold. What reads on from a matcher holds a handle of it, and none copies its runs until an
//! event changes one; a small one is copied. Contracts see the matcher.
#![tactic(auto)]

mod held;
mod rooms;
mod shared;
mod spares;

pub use held::Held;
pub use shared::Shared;
pub use spares::Spares;
use std::alloc::AllocError;

/// Want of memory. Any call that allocates may answer it, and says what stands after it.
pub type Memory = AllocError;
