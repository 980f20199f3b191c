// What is known of an event before any run is offered it.
ghost use Rattle.std.specs.Prelude.{◌≡◌, true, []};
ghost use Rattle.std.specs.List.{list_any};
ghost use Rattle.sp_plan.specs.Bounds.{IsSmall};
ghost use Rattle.sp_plan.specs.Compiled.{IsCompiled};
ghost use Rattle.sp_plan.specs.Events.{fits};
ghost use Rattle.sp_match.specs.public.Known.{IsKnown, known_by, may_take};

use crate::offer::first_name;
use sp_plan::{Bound, Event, Plan, law, may_hold};
use std::alloc::Global;

/// What is known of an event by the plan alone, whatever the open runs have bound.
#[derive(Clone, Copy, Drop)]
pub enum Known {
    /// No run takes it, none is abandoned by it, and it begins none.
    Never,
    /// It begins no run. One that is open may take it, or be abandoned by it.
    Onward,
    /// No more than that: it may begin a run, and one that is open may take it, or be abandoned by it.
    Any,
}

// Whether some name's predicate may hold of the event, negated ones among them. The last names are asked first: mostly
// they speak of events that are bound, so that no more has to be looked at.
fn may_be_taken(alloc: Global, plan: &Plan, event: &Event) -> bool
    requires compiled { IsCompiled plan.now }
    requires small { IsSmall event.now }
    ensures { result ≡ list_any (may_take event.now) plan.now.names }
{
    let names = plan.names.as_slice();
    let mut left = names.len();
    while left > 0 {
        left -= 1;
        if may_hold(alloc, &names[left].pred, event) {
            return true;
        }
    }
    false
}

/// What is known of an event that fits the plan, which is compiled: as much as can be said before any
/// event is bound. Takes no memory.
pub fn known_of(alloc: Global, plan: &Plan, event: &Event) -> Known
    requires compiled { IsCompiled plan.now }
    requires fits { fits plan.now event.now ≡ true }
    ensures value { result ≡ known_by plan.now event.now }
    ensures sure { IsKnown plan.now event.now result }
{
    known_beside(alloc, plan, event, &Bound::new(alloc))
}

/// The same with a value in which nothing is bound, which serves for many events.
pub fn known_beside(alloc: Global, plan: &Plan, event: &Event, none: &Bound) -> Known
    requires compiled { IsCompiled plan.now }
    requires fits { fits plan.now event.now ≡ true }
    requires none { none.now ≡ [] }
    ensures value { result ≡ known_by plan.now event.now }
    ensures sure { IsKnown plan.now event.now result }
{
    // The numbers of an event that fits are small, which predicates ask for.
    law::fitting_events_are_small();
    // Where no predicate may hold of it, none does, whatever is bound.
    law::what_may_not_hold_does_not();
    if first_name(plan, event, none).is_some() {
        Known::Any
    } else if may_be_taken(alloc, plan, event) {
        Known::Onward
    } else {
        Known::Never
    }
}
