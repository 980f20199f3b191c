//! Single public calls of the crates below, by names, for worked rows: a row has a call's name, what it
//! is made on and what is to come of it, as `docs/rows.md` says. No contract says that memory is there,
//! so a call that always answered want of memory would be proved; and what texts come to is printed here
//! and held against values worked out by hand.
//!
//! What is dear to prove is left out. A value of many parts is made in one function, which hands it on by
//! reference and drops it by `drop`: the end of its scope, and each `?` before, would write out the drops
//! of all its parts. Texts are appended with no look at want of memory, which the whole tells at the end.
#![tactic(auto)]

mod bindings;
mod call;
mod chances;
mod cutting;
mod drill;
mod given;
mod guessing;
mod journal;
mod lines;
mod listing;
mod loads;
mod machine;
mod matching;
mod numbers;
mod predicates;
mod predicting;
mod queries;
mod rows;
mod scanning;
mod schedule;
mod sequence;
mod spoiling;
mod standing;
mod stepped;
mod stepping;
mod text;
mod tokens;
mod windows;

pub use call::answer;
pub use journal::{beginning_of, counts_of};
