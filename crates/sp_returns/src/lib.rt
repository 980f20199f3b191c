//! What matches of one query return, as events of a second: its text is read, and compiled for the columns
//! of the second query. The grammar stands in `specs/Grammar.antt`, in which order items are checked in
//! `specs/Checks.antt`, and when expressions stand for them in `specs/Stands.antt`.
#![tactic(auto)]

mod compiling;
mod item;
pub mod law;
mod loading;
mod parsing;
mod refusal;
mod scope;
mod suited;

pub use compiling::compile_returns;
pub use item::Return;
pub use law::{one_list, one_return, returns_are_alike};
pub use loading::returns_of_text;
pub use parsing::parse_returns;
pub use refusal::ReturnsRefusal;
