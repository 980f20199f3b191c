// Steps of a core whose conditions are tested here.
ghost use Rattle.std.specs.Prelude.{◌≡◌, ◌-◌, ◌≤ℤ◌, length, slice_get, Some, IsTrue};

use sp_core::{Core, CoreFault};
use sp_plan::Event;
use std::alloc::{AllocError, Global};

/// How many events were fed.
pub(crate) fn fed(core: &Core) -> u32 {
    // What they stand for are at most 1,048,576 events.
    core.windows();
    core.events().len() as u32
}

// Whether an event is not before the last of others.
fn goes_on(events: &[Event], event: &Event) -> bool
    ensures { IsTrue result → (last : _)
        → slice_get events.now (length events.now - 1) ≡ Some last → last.time ≤ℤ event.now.time }
{
    match events.last() {
        Some(last) => last.time <= event.time,
        None => true,
    }
}

/// Feeds an event, and answers its number; None of an event that does not fit the plan, or is before the last
/// one.
pub(crate) fn feed_next(
    alloc: Global,
    core: &mut Core,
    event: Event,
) -> Result<Option<u32>, CoreFault> {
    // What they stand for are events that fit the plan and are in order.
    core.windows();
    if !core.plan().fits(&event) || !goes_on(core.events(), &event) {
        return Ok(None);
    }
    Ok(Some(core.feed(alloc, event)?))
}

/// The conflict of a version, None of one that is not live.
pub(crate) fn conflict_of(core: &Core, version: u64) -> Result<Option<u32>, AllocError> {
    match core.tree().get(version) {
        Some(_) => core.conflict(version),
        None => Ok(None),
    }
}
