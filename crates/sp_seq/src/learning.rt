// What is known of the events, which is asked once for each of them.
ghost use Rattle.std.specs.Prelude.{◌≡◌, [], ◌<◌, ◌≤◌, length, slice_index_or, OnOk};
ghost use Rattle.sp_plan.specs.Compiled.{IsCompiled};
ghost use Rattle.sp_plan.specs.Events.{AllFit};
ghost use Rattle.sp_plan.specs.declared.event.Event as seen;
ghost use Rattle.sp_match.specs.public.Known.{IsKnown};
ghost use Rattle.sp_seq.specs.Learned.{AllKnown};

use sp_match::{Known, known_beside};
use sp_plan::{Bound, Event, Memory, Plan};
use std::alloc::Global;

// What is known of the event at a place. Of those before place `first`, which no window to come has, nothing
// is asked.
fn known_at(
    alloc: Global,
    plan: &Plan,
    events: &[Event],
    first: usize,
    place: usize,
    none: &Bound,
) -> Known
    requires compiled { IsCompiled plan.now }
    requires fit { AllFit plan.now events.now }
    requires within { place < length events.now }
    requires none { none.now ≡ [] }
    ensures { (other : seen.Event)
        → IsKnown plan.now (slice_index_or events.now place other) result }
{
    if place < first {
        Known::Any
    } else {
        known_beside(alloc, plan, &events[place], none)
    }
}

// Learns what is known of the events below place `end`, those behind the ones that were learned before.
pub(crate) fn learn(
    alloc: Global,
    plan: &Plan,
    events: &[Event],
    first: usize,
    end: usize,
    known: &mut Vec<Known>,
) -> Result<(), Memory>
    requires compiled { IsCompiled plan.now }
    requires fit { AllFit plan.now events.now }
    requires within { end ≤ length events.now }
    requires known { AllKnown plan.now events.now known.old.items }
    ensures known { OnOk result (AllKnown plan.now events.now known.new.items) }
    ensures learned { OnOk result (end ≤ length known.new.items) }
{
    let none = Bound::new(alloc);
    for place in known.len()..end {
        known.push(known_at(alloc, plan, events, first, place, &none))?;
    }
    Ok(())
}
