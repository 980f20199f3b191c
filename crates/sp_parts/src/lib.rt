//! Parts of an input that share no event: each can be worked on by itself, in a tree of its own.
//! What they are stands in `specs/Parts.antt`, what their matches are in the whole input in
//! `specs/Shifted.antt`, and that these are the matches of the whole input in `specs/Laws.antt`.
#![tactic(auto)]

mod feeding;
pub mod law;
mod part;
mod shift;
mod stretch;

pub use law::{parts_fall_apart, parts_lie_within};
pub use part::{Part, parts};
pub use shift::shifted;
