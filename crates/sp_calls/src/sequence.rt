// The matches of the engine that goes window by window.
ghost use Rattle.std.specs.Prelude.{◌≡◌, ◌≤◌, length, IsTrue};
ghost use Rattle.std.specs.Arc.{arc_value};
ghost use Rattle.sp_plan.specs.Compiled.{IsCompiled};
ghost use Rattle.sp_plan.specs.Events.{AllFit, NeverGoesBack};

use crate::text::AnswerText;
use sp_plan::{Event, Match, Places, Plan};
use sp_seq::plain;
use std::alloc::{AllocError, Global};
use std::sync::Arc;

/// Appends the events of each name that a match binds, and those that it consumes.
pub(crate) fn push_bound(bound: &[(u8, Places)], used: &Places, out: &mut AnswerText) {
    for (name, places) in bound {
        out.number(" ", *name as i128);
        out.list(" ", places.list());
    }
    out.list(" uses ", used.list());
    out.text("\n");
}

// Appends a match: its window, its own number, the events of each name, and those that it consumes.
fn push_match(one: &Match, out: &mut AnswerText) {
    out.number("", one.window as i128);
    out.number(" ", one.number as i128);
    out.text(":");
    push_bound(one.bound.as_slice(), &one.used, out);
}

/// Whether all events fit the plan.
pub(crate) fn all_fit(plan: &Plan, events: &[Event]) -> bool
    ensures { IsTrue result → AllFit plan.now events.now }
{
    for event in events {
        if !plan.fits(event) {
            return false;
        }
    }
    true
}

// Whether no event has a time below that of one before it.
fn in_order(events: &[Event]) -> bool
    ensures { IsTrue result → NeverGoesBack events.now }
{
    for i in 1..events.len() {
        if events[i].time < events[i - 1].time {
            return false;
        }
    }
    true
}

/// Appends the matches of the events.
pub(crate) fn matches(
    alloc: Global,
    plan: &Arc<Plan>,
    events: &[Event],
    ended: bool,
    out: &mut AnswerText,
) -> Result<(), AllocError>
    requires { IsCompiled (arc_value plan.now) }
{
    if events.len() > 1000 || !all_fit(plan, events) || !in_order(events) {
        out.text("events that don't fit\n");
        return Ok(());
    }
    for one in &plain(alloc, plan.clone()?, events, ended)? {
        push_match(one, out);
    }
    Ok(())
}
