// What a run does with an event: it is asked under which name it takes it, and whether it is guarded.
ghost use Rattle.std.specs.Prelude.{◌≡◌, true, false, None, [], ◌∷◌, find, IfSome};
ghost use Rattle.std.specs.List.{list_any};
ghost use Rattle.std.specs.Option.{option_to_list};
ghost use Rattle.sp_plan.specs.Runs as definitions;
ghost use Rattle.sp_plan.specs.Runs.{leading, name_holds, unbound};
ghost use Rattle.sp_scan.specs.inside.Ahead.{IsAhead, IsNamed};
ghost use Rattle.sp_scan.specs.inside.Offer.{IsOffer};

use crate::ahead::span;
use crate::offer::Offer;
use crate::pairs::Pairs;
use crate::run::Run;
use sp_plan::{Element, Select, has_bit};

// Whether the event fulfils the predicate of the name, for a run of these pairs.
fn fulfils(offer: &Offer, pairs: &Pairs, name: u8) -> bool
    requires { IsOffer offer.now }
    ensures { result ≡ name_holds offer.now.plan.now pairs.now offer.now.event.now name }
{
    match offer.plan.names.as_slice().get(name as usize) {
        Some(named) => has_bit(offer.may, name as usize) && pairs.fulfil(&named.pred, offer.event),
        None => false,
    }
}

// The name, where the event is taken under it.
fn under(offer: &Offer, pairs: &Pairs, name: u8) -> Option<u8>
    requires { IsOffer offer.now }
    ensures { result ≡ find (name_holds offer.now.plan.now pairs.now offer.now.event.now)
        (name ∷ []) }
{
    if fulfils(offer, pairs, name) {
        Some(name)
    } else {
        None
    }
}

// The first name of the element that is still to be bound and under which the event is taken.
fn lacking(offer: &Offer, pairs: &Pairs, element: Element) -> Option<u8>
    requires offer { IsOffer offer.now }
    requires named { IsNamed element }
    ensures { result ≡ find (name_holds offer.now.plan.now pairs.now offer.now.event.now)
        (unbound pairs.now (Some element)) }
{
    let (first, past) = span(element);
    for name in first..past {
        if !pairs.has(name) && fulfils(offer, pairs, name) {
            return Some(name);
        }
    }
    None
}

// The same of an element that may be there, which isn't filled: where it binds a single name, that is to be bound.
fn onward(offer: &Offer, pairs: &Pairs, element: Option<Element>) -> Option<u8>
    requires offer { IsOffer offer.now }
    requires named { IfSome element IsNamed }
    requires unfilled { IfSome element
        (λ element. definitions.is_filled pairs.now element ≡ false) }
    ensures { result ≡ find (name_holds offer.now.plan.now pairs.now offer.now.event.now)
        (unbound pairs.now element) }
{
    match element? {
        Element::One(name) | Element::Plus(name) => under(offer, pairs, name),
        set => lacking(offer, pairs, set),
    }
}

// The name that may be bound once more, where the event is taken under it.
fn once_more(offer: &Offer, pairs: &Pairs, again: Option<u8>) -> Option<u8>
    requires { IsOffer offer.now }
    ensures { result ≡ find (name_holds offer.now.plan.now pairs.now offer.now.event.now)
        (option_to_list again) }
{
    under(offer, pairs, again?)
}

/// The name under which the run takes the event, if it takes it: of the first element not yet filled the first
/// name that it lacks, else its last name once more.
pub(crate) fn takes(offer: &Offer, run: &Run) -> Option<u8>
    requires offer { IsOffer offer.now }
    requires ahead { IsAhead offer.now.plan.now run.now.pairs run.now.ahead }
    ensures { result ≡ definitions.takes offer.now.plan.now run.now.pairs offer.now.event.now }
{
    match onward(offer, &run.pairs, run.ahead.element) {
        Some(name) => Some(name),
        None => once_more(offer, &run.pairs, run.ahead.again),
    }
}

/// The name under which the event begins a run, if it begins one.
pub(crate) fn begins(offer: &Offer) -> Option<u8>
    requires { IsOffer offer.now }
    ensures { result ≡ definitions.takes offer.now.plan.now [] offer.now.event.now }
{
    takes(offer, offer.empty)
}

// Whether the event fulfils the predicate of one of the names that stand negated in front of these elements.
fn meets_one(offer: &Offer, pairs: &Pairs, elements: &[Element]) -> bool
    requires { IsOffer offer.now }
    ensures { result ≡ list_any (name_holds offer.now.plan.now pairs.now offer.now.event.now)
        (leading elements.now) }
{
    for element in elements {
        match element {
            Element::Never(name) => {
                if fulfils(offer, pairs, *name) {
                    return true;
                }
            }
            _ => return false,
        }
    }
    false
}

// Whether the event fulfils the predicate of a name that guards the run.
fn is_guarded(offer: &Offer, run: &Run) -> bool
    requires offer { IsOffer offer.now }
    requires ahead { IsAhead offer.now.plan.now run.now.pairs run.now.ahead }
    ensures { result ≡ definitions.guarded offer.now.plan.now run.now.pairs offer.now.event.now }
{
    let elements = offer.plan.elements.as_slice();
    meets_one(offer, &run.pairs, &elements[run.ahead.behind..])
}

// Whether the policy has each run leave that doesn't take the event: under LAST where it begins a run.
fn leaves(offer: &Offer) -> bool
    requires { IsOffer offer.now }
    ensures { result ≡ definitions.leaves offer.now.plan.now.select offer.now.plan.now
        offer.now.event.now }
{
    match offer.plan.select {
        Select::Last => begins(offer).is_some(),
        Select::First | Select::Each => false,
    }
}

/// Whether the run leaves where it doesn't take the event.
pub(crate) fn departs(offer: &Offer, run: &Run) -> bool
    requires offer { IsOffer offer.now }
    requires ahead { IsAhead offer.now.plan.now run.now.pairs run.now.ahead }
    ensures { result ≡ definitions.departs offer.now.plan.now run.now.pairs offer.now.event.now }
{
    leaves(offer) || is_guarded(offer, run)
}

/// Whether the run is known to pass the event over: none of the names that count for it may hold of the event, and the
/// policy lets it stay.
pub(crate) fn passes_over(offer: &Offer, run: &Run) -> bool
    requires offer { IsOffer offer.now }
    requires ahead { IsAhead offer.now.plan.now run.now.pairs run.now.ahead }
    ensures none { result ≡ true
        → definitions.takes offer.now.plan.now run.now.pairs offer.now.event.now ≡ None }
    ensures stays { result ≡ true
        → definitions.departs offer.now.plan.now run.now.pairs offer.now.event.now ≡ false }
{
    match offer.plan.select {
        Select::Last => false,
        Select::First | Select::Each => offer.may & run.ahead.names == 0,
    }
}
