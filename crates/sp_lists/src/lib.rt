//! A list as the way into an engine, and a way out of it that keeps nothing: for whoever has the events at hand and
//! takes the matches from the core. What the list gives stands in `specs/Listing.antt`, that it gives good events in
//! `specs/Laws.antt`.
#![tactic(auto)]

mod list_intake;
mod unkept;

pub use list_intake::ListIntake;
pub use unkept::Unkept;
