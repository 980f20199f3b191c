//! The program as a function of its words, its input, its files and its outputs: the commands that drive the
//! machine by a splitter and its instances, and the answer to all words. What it promises is `Promise` of
//! `Outcome.antt` in `sp_commands`, the contract of `spectre`.
#![tactic(auto)]

mod asked;
mod choosing;
mod copies;
mod drill;
mod graph;
mod law;
mod lines;
mod listing;
mod plans;
mod run;
mod top;
mod trees;
mod workshop;

pub use top::spectre;
