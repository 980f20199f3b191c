//! Reading a query from its text. What the grammar is stands in `sp_query`; which query a text has,
//! and why it has none, in `specs/Parses.antt`.
#![tactic(auto)]

mod clauses;
pub mod columns;
mod definitions;
pub mod expression;
mod fault;
pub mod law;
mod list;
pub mod parsing;
mod pattern;
mod predicate;
pub mod query;
pub mod stop;
pub mod tokens;
mod trees;

pub use fault::ParseFault;
pub use law::{one_fault, one_query};
pub use parsing::parse;
