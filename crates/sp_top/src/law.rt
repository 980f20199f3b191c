//! The laws that proofs of this crate call. A call of a law does nothing: its contract is all that it has.
ghost use Rattle.std.specs.Prelude.{◌≡◌};
ghost use Rattle.sp_group.specs.Steps.{replay};
ghost use Rattle.sp_rules.specs.Schedules.{Reached};

pub(crate) use sp_cli::numbers_are_within;
pub(crate) use sp_commands::plans_match_alike;
use sp_core::Core;
pub(crate) use sp_cut::rows_stay;
pub(crate) use sp_drill::{drill_query_has_plan, generated_rows_are_read};
pub(crate) use sp_intake::loose_is_reading;
pub(crate) use sp_load::one_reading;
pub(crate) use sp_parts::parts_fall_apart;
pub(crate) use sp_plan::fitting_events_are_small;
pub(crate) use sp_window::growth;

/// Law: steps lead to the state of a core, and those of its journal do.
pub(crate) fn steps_lead_to(core: &Core)
    ensures reached { Reached core.now.plan core.now.bound core.now.machine }
    ensures replays { replay core.now.plan core.now.bound core.now.journal ≡ core.now.machine }
{
    core.finished();
    core.journal();
}
