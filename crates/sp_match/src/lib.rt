//! The matcher of a window: the open runs, what each event does to them, the moves that tell of it, and
//! the match that a completed run is.
//! An event comes as an offer: run by run it has its turns, then it may start a run, and settling ends its
//! handling. What is proved of runs and moves whatever the matcher does stands in laws.
#![tactic(auto)]

mod all_runs;
mod binding;
mod completing;
mod found;
mod handling;
mod holdings;
mod known;
pub mod law;
mod leaving;
mod lefts;
mod matcher;
mod moves;
mod offer;
mod run;
mod settling;
mod starting;
mod stock;
mod takers;
mod taking;
mod turns;
mod wanting;

pub use found::{as_match, match_of, places_of};
pub use known::{Known, known_beside, known_of};
pub use law::{
    abandonments_are_told, closing_ends_runs, completions_are_matches, handling_is_lawful,
    moves_are_handling, moves_lead_on, numbers_stay_below, one_event_more, open_has_no_match,
    runs_are_sound, several_are_lawful,
};
pub use matcher::Matcher;
pub use moves::{Move, Moves};
pub use run::Run;
use std::alloc::AllocError;

/// Want of memory. Any call that allocates may answer it, and says what stands after it.
pub type Memory = AllocError;
