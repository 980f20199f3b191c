// The events that expressions read of a match: the last one of each name.
ghost use Rattle.std.specs.Prelude.{◌≡◌, OnOk};
ghost use Rattle.std.specs.Option.{option_copied};
ghost use Rattle.sp_graph.specs.Tables.{last_event, last_of_each};

use sp_plan::{Bound, Event, Match, Memory};
use std::alloc::Global;

// The last event of these numbers, None where none of them is there.
fn last_event<'a>(events: &'a [Event], numbers: &[u32]) -> Option<&'a Event>
    ensures { option_copied result ≡ last_event events.now numbers.now }
{
    let mut left = numbers.len();
    while left > 0 {
        left -= 1;
        let place = (numbers[left] as usize).saturating_sub(1);
        if let Some(event) = events.get(place) {
            return Some(event);
        }
    }
    None
}

/// Binds the last event of each name that a match binds, and no other. Where memory is wanted, any may be
/// bound.
pub(crate) fn bind_last(
    alloc: Global,
    events: &[Event],
    found: &Match,
    bound: &mut Bound,
) -> Result<(), Memory>
    ensures { OnOk result (bound.new ≡ last_of_each events.now found.now.bound) }
{
    bound.clear();
    for (name, places) in found.bound.as_slice() {
        if let Some(event) = last_event(events, places.list()) {
            bound.bind(alloc, *name, event)?;
        }
    }
    Ok(())
}
