//! Queries printed as texts that are read as the same queries, and all of `sp_query` handed on. What the
//! printing promises, function by function, stands in `specs/Printing.antt`.
#![tactic(auto)]

mod columns;
mod consume;
mod definitions;
mod expression;
mod names;
mod parts;
mod pattern;
mod predicate;
mod printing;
mod tokens;
mod window;

pub use printing::print;
pub use sp_query::{
    Ident, Kernel, LexFault, Mark, Node, Query, QueryColumn, QueryConsume, QueryElement,
    QueryOpening, Span, Token, Tree, Word, is_mark, lex,
};
