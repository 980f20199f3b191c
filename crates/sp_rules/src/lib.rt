//! What a layer over matcher and windows may rely on, whichever plan is run: it stands in
//! `specs/Lawful.antt`, and follows from the laws of the layers below. From it follows the theorem
//! over every list of steps of the speculative machine, in `specs/Schedules.antt`. No code runs here.
#![tactic(auto)]

pub mod law;

pub use law::{
    coming_home_adds_matches, compiled_plans_are_lawful, every_schedule, lent_stays,
    pieces_come_home, readings_and_return, returns_by_groups, versions_have_groups,
};
