//! The trees of queries, whether two of them are the same, and the tokens handed on from `sp_lex`. What
//! the grammar is stands in `specs/Grammar.antt`, which queries a text has in `specs/Queries.antt`.
#![tactic(auto)]

mod mark;
mod query;
mod same;
mod tree;

pub use mark::{Mark, is_mark};
pub use query::{Ident, Query, QueryColumn, QueryConsume, QueryElement, QueryOpening};
pub use sp_lex::{Kernel, LexFault, Span, Token, Word, lex};
pub use tree::{Node, Tree};
