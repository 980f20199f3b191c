//! The tree of versions: which version stands under which, by which guess, and which of its groups are open. In
//! `specs/` stands what a tree is to its callers (`Grown`), what each call does to it (`Changes`), and what
//! several decisions come to (`Decided`).
#![tactic(auto)]

mod hanging;
pub mod law;
mod tree;
mod version;
mod vertex;

pub use law::{decisions_add_up, one_decision_first, openings_change_groups};
use std::alloc::AllocError;
pub use tree::Tree;

/// Want of memory. Any call that allocates may answer it, and says what stands after it.
pub type Memory = AllocError;
