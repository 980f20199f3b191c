//! The matches of one window, found by going through its events once, with nothing of the engines: what a run
//! has bound is a list of pairs, each open run is asked by itself, and each event is handled as the meaning of
//! a query says it. What is found stands in `specs/Scanning.antt`.
#![tactic(auto)]

mod ahead;
mod asking;
mod found;
mod handling;
mod offer;
mod pairs;
mod run;
mod runs;
mod scan;
mod turns;

pub use found::Found;
pub use scan::scanned;
