//! Generated rows: a table of events that the number of events and a seed determine, to try the engine on.
//! Which table it is stands in `specs/Generated.antt`; that its lines hold no quote, no blank and no end
//! of a line, in `specs/Plain.antt`.
#![tactic(auto)]

mod draw;
pub mod law;
mod row;
mod table;

pub use law::lines_are_plain;
use std::alloc::AllocError;
pub use table::generate;

/// Want of memory. Any call that allocates may answer it.
pub type Memory = AllocError;
