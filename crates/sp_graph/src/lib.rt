//! An operator graph: the matches of one query become the events of a second. What they become stands in
//! `specs/Derived.antt`, and which expressions a compiler may hand in, in `specs/Returns.antt`.
#![tactic(auto)]

mod bind;
pub mod law;
mod outcome;
mod table;
mod texts;

pub use law::returned_texts_are_there;
pub use outcome::{Derived, derive};
