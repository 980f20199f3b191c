//! The windows of a plan while its events come one after another.
//! What the windows of a list of events are is said in `sp_plan/specs/Windows.antt`; that the
//! windows kept here are those is said by `Stands` in `specs/Standing.antt`.
#![tactic(auto)]

pub mod law;
mod opening;
mod record;
mod windows;

pub use law::{
    closed_come_first, finished_windows_stay, good_events, growth, windows_are_few,
    windows_are_kept, windows_are_read, windows_hold,
};
pub use windows::{Window, Windows};
