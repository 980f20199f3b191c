//! What every layer stands on: lists and texts as contracts see them, numbers in rising order and as texts,
//! shares of a whole, the mark that a text may begin with, and the limits of the program.
#![tactic(auto)]

mod commas;
pub mod law;
pub mod limits;
mod listed;
mod mark;
mod merge;
mod numbers;
mod place;
mod share;

pub use commas::{push_commas, push_list};
pub use law::rising_same;
pub use listed::{Listed, Text};
pub use mark::{is_marked, without_mark};
pub use numbers::Numbers;
pub use share::Share;
use std::alloc::AllocError;

/// Want of memory. Any call that allocates may answer it, and says what stands after it.
pub type Memory = AllocError;
