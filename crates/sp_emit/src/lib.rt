//! The lines of matches: written, and read back. What the line of a match is stands in
//! `sp_plan/specs/Lines.antt`; which matches a plan can have, and that a text is the line of at most
//! one of them, in `specs/Matches.antt`; what is in front of a text that is read, in
//! `specs/Reading.antt`. The lines of a state of the speculative machine are written too; what they
//! are stands in `specs/StateLines.antt`. So is the line that sums up a run, of `specs/Summary.antt`.
#![tactic(auto)]

mod bindings;
mod front;
pub mod law;
mod number;
mod places;
mod read;
mod state;
mod summary;
mod write;

pub use front::behind;
pub use law::one_match;
pub use number::short_labelled_at;
pub use places::numbers_at;
pub use read::{read_match, read_match_line};
pub use state::{push_id, push_numbers, push_truth, state_lines};
pub use summary::summary_text;
pub use write::{match_line, push_match_line};
