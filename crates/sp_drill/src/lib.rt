//! That generated rows are read to their end: under a plan whose columns are the time, the symbol and the
//! price of these rows, each of them gives an event. Which plans these are and the law's words stand in
//! `specs/Drill.antt`. And the query that a drill runs over them, with the law that it has a plan and that
//! each plan of it is one of these, in `specs/Query.antt`.
#![tactic(auto)]

pub mod law;
mod text;

pub use law::{drill_query_has_plan, generated_rows_are_read};
pub use text::query;
