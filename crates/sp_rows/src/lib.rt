//! Events from rows of CSV. A row becomes cells, the first row tells where the columns of the plan stand,
//! and each later one gives an event or a fault with its place.
#![tactic(auto)]

mod cells;
mod clock;
mod columns;
mod content;
mod fault;
mod header;
mod numbers;
mod progress;
mod quoted;
mod rows;
mod split;
mod texts;
mod values;

pub use fault::{RowError, RowFault, RowKind};
pub use rows::Rows;
