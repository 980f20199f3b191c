//! The core of the speculative machine: the events, their windows, the versions of windows, and what was
//! emitted. Each call is one step of the machine that `sp_group` defines; whoever takes the steps, in any
//! order, has what processing the windows one after another gives. What callers see stands in
//! `specs/Running.antt`.
#![tactic(auto)]

mod answer;
mod bench;
mod conflicts;
mod emitted;
mod fault;
mod feeding;
mod finishing;
mod given;
mod homecoming;
mod law;
mod leasing;
mod lent;
mod looking;
mod machine;
mod news;
mod returning;
mod rolling;
mod rooms;
mod spawning;
mod state;
mod stepping;
mod withheld;

pub use answer::Answer;
pub use bench::Bench;
pub use emitted::Emitted;
pub use fault::CoreFault;
pub use given::Given;
pub use lent::Lent;
pub use machine::Core;
use std::alloc::AllocError;

/// Want of memory. Any call that allocates may answer it, and says what stands after it.
pub type Memory = AllocError;
