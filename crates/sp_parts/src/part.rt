// The parts of an input.
ghost use Rattle.std.specs.Prelude.{◌≡◌, ◌<◌, ◌≤◌, ◌-◌, length, map, take, drop, IfOk};
ghost use Rattle.std.specs.Arc.{arc_value};
ghost use Rattle.sp_base.specs.Limits.{event_limit};
ghost use Rattle.sp_plan.specs.Compiled.{IsCompiled};
ghost use Rattle.sp_plan.specs.Events.{AllFit, NeverGoesBack};
ghost use Rattle.sp_window.specs.Standing.{Stands};
ghost use Rattle.sp_parts.specs.Parts as spec;
ghost use Rattle.sp_parts.specs.Seen.{seen};
ghost use Rattle.sp_parts.specs.Stretches.{IsStretch, windows_of as windows_kept};

use crate::feeding::windows_of;
use crate::stretch::{span_at, stretch_end};
use sp_plan::{Event, Memory, Plan};
use sp_window::Windows;
use std::alloc::Global;
use std::sync::Arc;

/// A longest stretch of windows each of which shares an event with the one before it.
#[derive(Drop)]
pub struct Part {
    /// The number of its first event in the input, from 1.
    pub first: u32,
    /// How many windows of the input stand before its own.
    pub windows: u32,
    /// Whether no later event can join its last window.
    pub closed: bool,
    /// The events of its windows.
    pub events: Vec<Event>,
}

// The events from one number up to another.
fn events_between(events: &[Event], first: u32, last: u32) -> &[Event]
    requires low { 0 < first }
    requires some { first ≤ last }
    requires within { last ≤ length events.now }
    ensures { result.now ≡ take (last - (first - 1)) (drop (first - 1) events.now) }
{
    &events[first as usize - 1..last as usize]
}

// The part whose windows stand from one place up to another.
fn part_at(
    alloc: Global,
    windows: &Windows,
    events: &[Event],
    begin: u32,
    end: u32,
) -> Result<Part, Memory>
    requires compiled { IsCompiled windows.now.plan }
    requires stands { Stands windows.now events.now windows.now.ended }
    requires stretch { IsStretch (windows_kept windows.now events.now) begin end }
    ensures { IfOk result (λ part. seen part ≡ spec.part_of events.now begin
        (take (end - begin) (drop begin (windows_kept windows.now events.now)))) }
{
    let first = span_at(windows, events, begin).first;
    let last = span_at(windows, events, end - 1);
    let own = events_between(events, first, last.last);
    Ok(Part {
        first,
        windows: begin,
        closed: last.closed,
        events: Event::copies(alloc, own)?,
    })
}

/// The parts of an input, in order, with copies of their events: an event of no window is in none. The plan
/// is compiled, there are at most 1,048,576 events, they fit the plan, and their times never go back. Only
/// the last part can be open, and none is where the input has `ended`. Fails for want of memory alone.
pub fn parts(
    alloc: Global,
    plan: Arc<Plan>,
    events: &[Event],
    ended: bool,
) -> Result<Vec<Part>, Memory>
    requires compiled { IsCompiled (arc_value plan) }
    requires few { length events.now ≤ event_limit }
    requires fit { AllFit (arc_value plan) events.now }
    requires ordered { NeverGoesBack events.now }
    ensures { IfOk result
        (λ parts. map seen parts.items ≡ spec.parts_of (arc_value plan) events.now ended) }
{
    let windows = windows_of(alloc, plan, events, ended)?;
    let count = windows.count();
    let mut parts = Vec::new(alloc);
    let mut begin = 0;
    while begin < count {
        let end = stretch_end(&windows, events, begin);
        parts.push(part_at(alloc, &windows, events, begin, end)?)?;
        begin = end;
    }
    Ok(parts)
}
