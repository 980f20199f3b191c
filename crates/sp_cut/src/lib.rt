//! Rows from bytes, in whatever pieces they come.
//! A row ends at a line feed with an even number of quotes before it (RFC 4180, section 2).
#![tactic(auto)]

mod cut;
mod ends;
mod fault;
pub mod law;
mod part;
mod span;

pub use cut::Cutter;
pub use fault::{CutFault, Memory};
pub use law::{rows_add_up, rows_stay};
pub use span::Span;
