//! The tokens of a query's text. What they are stands in `specs/Spelling.antt`.
#![tactic(auto)]

mod bytes;
mod fault;
pub mod law;
mod lexer;
mod literal;
mod mark;
mod number;
mod token;
mod word;

pub use law::one_fault;
pub use lexer::lex;
pub use token::{Kernel, LexFault, Span, Token, Word};
