//! The laws that proofs of this crate call. A call of a law does nothing: its contract is all that it has.
ghost use Rattle.sp_plan.specs.Compiled.{IsCompiled};
ghost use Rattle.sp_rules.specs.Schedules.{Reached};

use sp_core::Core;
pub(crate) use sp_spread::returns_follow_readings;
pub(crate) use sp_window::{closed_come_first, finished_windows_stay};

/// Law: the plan of a core is compiled, and steps lead to its state.
pub(crate) fn steps_lead_to(core: &Core)
    ensures compiled { IsCompiled core.now.plan }
    ensures reached { Reached core.now.plan core.now.bound core.now.machine }
{
    core.plan();
    core.finished();
}
