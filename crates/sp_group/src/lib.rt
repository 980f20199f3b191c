//! The speculative machine as plain values: labels, steps, refusals and the state as it is printed. In
//! `specs/` stands what the machine is: its state (`Machine`), which steps it refuses (`Refusing`), what
//! the others do (`Effects`), and where lists of steps and journals lead (`Steps`).
#![tactic(auto)]

mod label;
mod outcome;
mod refusal;
mod state;
mod step;

pub use label::Label;
pub use outcome::Outcome;
pub use refusal::Refusal;
pub use state::{State, TicketLine, VersionLine};
use std::alloc::AllocError;
pub use step::{Entry, Step};

/// Want of memory. Any call that allocates may answer it, and says what stands after it.
pub type Memory = AllocError;
