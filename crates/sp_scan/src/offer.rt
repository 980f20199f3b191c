// An event at hand.
ghost use Rattle.std.specs.Prelude.{◌≡◌, IfOk};
ghost use Rattle.sp_plan.specs.Bounds.{IsSmall};
ghost use Rattle.sp_plan.specs.Compiled.{IsCompiled};
ghost use Rattle.sp_scan.specs.inside.Offer.{IsShared, NoOtherHolds};

use crate::run::Run;
use sp_plan::{Event, Memory, Plan, SharedEvent, may_hold, with_bit};
use std::alloc::Global;

/// An event that the open runs are offered, and that may start one.
#[derive(Clone, Copy, Drop)]
pub(crate) struct Offer<'a> {
    /// Where memory comes from.
    pub(crate) alloc: Global,
    /// What is matched.
    pub(crate) plan: &'a Plan,
    /// A run that has bound no event.
    pub(crate) empty: &'a Run,
    /// The event's number, from 1.
    pub(crate) number: u32,
    pub(crate) event: &'a Event,
    /// The names whose predicates may hold of it, as bits of a number, and perhaps others: of a name that isn't among
    /// them the predicate doesn't hold, whatever a run has bound.
    pub(crate) may: u64,
}

// The names whose predicates may hold of the event, as bits of a number.
fn asked(alloc: Global, plan: &Plan, event: &Event) -> u64
    requires compiled { IsCompiled plan.now }
    requires small { IsSmall event.now }
    ensures { NoOtherHolds plan.now event.now result }
{
    let names = plan.names.as_slice();
    let mut mask = 0;
    for place in 0..names.len() {
        mask = with_bit(mask, place, may_hold(alloc, &names[place].pred, event));
    }
    mask
}

/// The names whose predicates may hold of the event, as bits of a number, where so many runs are open. All are told
/// where no more runs are open than there are names: then the runs are asked at no more cost than the names.
pub(crate) fn may_of(alloc: Global, plan: &Plan, event: &Event, open: usize) -> u64
    requires compiled { IsCompiled plan.now }
    requires small { IsSmall event.now }
    ensures { NoOtherHolds plan.now event.now result }
{
    if open > plan.names.as_slice().len() {
        asked(alloc, plan, event)
    } else {
        u64::MAX
    }
}

/// A handle of the event for a run that binds it. The event is copied for the first of these runs alone; `shared`,
/// which is None until then, keeps a handle for the others.
pub(crate) fn share(offer: &Offer, shared: &mut Option<SharedEvent>) -> Result<SharedEvent, Memory>
    requires { IsShared offer.now shared.old }
    ensures event { IfOk result (λ event. event ≡ offer.now.event.now) }
    ensures shared { IsShared offer.now shared.new }
{
    if let Some(event) = shared {
        return event.share();
    }
    let event = SharedEvent::of(offer.alloc, offer.event)?;
    *shared = Some(event.share()?);
    Ok(event)
}
