//! Sheets, which are files of worked rows: each row is a command line or a single call, what that is run over, and
//! what is to come of it. The rows are read, they say which calls are to be made, and what differs is told.
//! docs/rows.md describes them. Who makes the calls stands on the top call, where each function is dear to prove;
//! what reads and compares rows stands here, on nearly nothing.
#![tactic(auto)]

mod call;
mod delayed;
mod escapes;
mod fault;
mod line;
mod reader;
mod row;
mod sheet;
mod telling;
mod told;

pub use call::{Call, Failing, Outcome};
pub use delayed::{Delayed, Pair};
pub use row::Row;
pub use sheet::{Way, read_sheet};
pub use told::Told;
