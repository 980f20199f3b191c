// An event that is offered to the runs of a window.
ghost use Rattle.std.specs.Prelude.{◌≡◌, [], Some, find, IfOk, OnOk};
ghost use Rattle.sp_plan.specs.Bounds.{IsSmall};
ghost use Rattle.sp_plan.specs.Compiled.{IsCompiled};
ghost use Rattle.sp_plan.specs.Runs.{binds, name_holds, takes};
ghost use Rattle.sp_match.specs.inside.Good.{IsNamed};
ghost use Rattle.sp_match.specs.inside.Offer.{IsOffer, IsShared, lets_leave};

use crate::Memory;
use crate::known::Known;
use crate::stock::Stock;
use crate::takers::Takers;
use crate::taking::span;
use sp_plan::{Bound, Element, Event, Plan, Select, SharedEvent, holds};
use std::alloc::Global;

/// An event that the open runs are offered, and that may start one.
#[derive(Clone, Copy, Drop)]
pub(crate) struct Offer<'a> {
    /// Where memory comes from.
    pub(crate) alloc: Global,
    /// What is matched.
    pub(crate) plan: &'a Plan,
    /// The event's number, from 1.
    pub(crate) number: u32,
    pub(crate) event: &'a Event,
    /// What is known of it.
    pub(crate) known: Known,
    /// Whether it was asked of all open runs at once which of them take it.
    pub(crate) is_told: bool,
    /// Which do, where that was asked; else this tells of an earlier event.
    pub(crate) takers: &'a Takers,
}

// Whether the event fulfils the predicate of the name where nothing is bound.
fn fits_first(plan: &Plan, event: &Event, none: &Bound, name: u8) -> bool
    requires compiled { IsCompiled plan.now }
    requires small { IsSmall event.now }
    requires none { none.now ≡ [] }
    ensures { result ≡ name_holds plan.now [] event.now name }
{
    match plan.names.as_slice().get(name as usize) {
        Some(name) => holds(&name.pred, event, none),
        None => false,
    }
}

// The first name of the element under which the event begins a run.
fn first_of(plan: &Plan, event: &Event, none: &Bound, element: Element) -> Option<u8>
    requires compiled { IsCompiled plan.now }
    requires small { IsSmall event.now }
    requires none { none.now ≡ [] }
    requires named { IsNamed element }
    ensures { result ≡ find (name_holds plan.now [] event.now) (binds element) }
{
    let (first, past) = span(element);
    for name in first..past {
        if fits_first(plan, event, none, name) {
            return Some(name);
        }
    }
    None
}

/// The name under which an event begins a run, if it begins one: a name of the first element. Nothing is
/// bound in `none`.
pub(crate) fn first_name(plan: &Plan, event: &Event, none: &Bound) -> Option<u8>
    requires compiled { IsCompiled plan.now }
    requires small { IsSmall event.now }
    requires none { none.now ≡ [] }
    ensures { result ≡ takes plan.now [] event.now }
{
    let elements = plan.elements.as_slice();
    if elements.is_empty() {
        return None;
    }
    first_of(plan, event, none, elements[0])
}

/// The name under which the event begins a run, if it begins one. It isn't looked for where it is known
/// that there is none.
pub(crate) fn begins(offer: &Offer) -> Option<u8>
    requires { IsOffer offer.now }
    ensures { result ≡ takes offer.now.plan.now [] offer.now.event.now }
{
    match offer.known {
        Known::Never | Known::Onward => None,
        Known::Any => first_name(offer.plan, offer.event, &Bound::new(offer.alloc)),
    }
}

/// Whether the policy has each open run leave that doesn't take the event: under LAST, where it begins a run.
pub(crate) fn leaves(offer: &Offer) -> bool
    requires { IsOffer offer.now }
    ensures { result ≡ lets_leave offer.now }
{
    match offer.plan.select {
        Select::Last => begins(offer).is_some(),
        Select::First | Select::Each => false,
    }
}

/// A handle of the event for a run that binds it. The event is copied for the first of these runs alone;
/// `shared`, which is None until then, keeps a handle for the others.
pub(crate) fn share(offer: &Offer, shared: &mut Stock) -> Result<SharedEvent, Memory>
    requires { IsShared offer.now shared.old }
    ensures event { IfOk result (λ event. event ≡ offer.now.event.now) }
    ensures kept { OnOk result (shared.new ≡ Some offer.now.event.now) }
    ensures shared { IsShared offer.now shared.new }
{
    if let Some(event) = shared.event() {
        return event.share();
    }
    let event = shared.copy_of(offer.alloc, offer.event)?;
    shared.keep_event(&event)?;
    Ok(event)
}
