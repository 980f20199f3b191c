//! The words of a command line, read by `clap`. Which words are which command stands in `specs/Commands.antt`.
#![tactic(auto)]

mod command;
pub mod law;
mod options;
mod read;
mod values;

pub use command::{Command, QuerySource, Speed, UsageFault};
pub use law::{numbers_are_within, pairs_are_commands, pairs_are_found};
pub use read::read_words;
