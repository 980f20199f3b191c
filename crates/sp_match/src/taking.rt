// Which name a run takes an event under, and whether it is guarded by one.
ghost use Rattle.std.specs.Prelude.{◌≡◌, ◌⊎◌, ◌<◌, ◌≤◌, ◌-◌, ◌&&◌, ◌||◌, true, Some, None, drop, is_some, length, option_and_then, take, not, slice_get, slice_index_or, IfSome, if◌then◌else◌};
ghost use Rattle.std.specs.List.{All, range_with_len, list_any, list_all, last_or};
ghost use Rattle.sp_base.specs.Numbers.{is_among};
ghost use Rattle.sp_plan.specs.declared.plan.Plan.{Plan};
ghost use Rattle.sp_plan.specs.Bounds.{IsSmall};
ghost use Rattle.sp_plan.specs.Compiled.{IsCompiled};
ghost use Rattle.sp_plan.specs.Runs;
ghost use Rattle.sp_plan.specs.Runs.{binds, is_bound, is_plus, name_holds, unbound};
ghost use Rattle.sp_match.specs.inside.Kept.{kept, pairs};
ghost use Rattle.sp_match.specs.inside.Good.{Good, IsNamed};
ghost use Rattle.sp_match.specs.inside.Taking.{IsAhead, ahead_still, first_lacked, guard_range, is_again, last_again, negated_count, negated_name, next_element, once_more, range_of};
ghost use Rattle.sp_match.specs.inside.Offer.{IsOffer, IsToldAt, answer};
ghost use Rattle.sp_match.specs.inside.Takers.{is_wanted};
ghost use Rattle.sp_match.specs.inside.Effects.{looking};

use crate::offer::Offer;
use crate::run::{Ahead, Run};
use sp_plan::{Element, Event, Plan, holds};

// Whether a run has bound an event to the name.
fn has(run: &Run, name: u8) -> bool
    requires good { (q : Plan) × Good q (kept run.now) }
    requires named { name < 32 }
    ensures { result ≡ is_bound (pairs (kept run.now)) name }
{
    run.names[name as usize]
}

// Whether the event fulfils the predicate of the name, for this run.
fn fits_name(plan: &Plan, run: &Run, event: &Event, name: u8) -> bool
    requires compiled { IsCompiled plan.now }
    requires good { Good plan.now (kept run.now) }
    requires small { IsSmall event.now }
    ensures { result ≡ name_holds plan.now (pairs (kept run.now)) event.now name }
{
    match plan.names.as_slice().get(name as usize) {
        Some(name) => holds(&name.pred, event, &run.events),
        None => false,
    }
}

// Whether the run at this place takes the event under the name, as takers tell it or else as the predicate says.
fn takes_as(offer: &Offer, run: &Run, at: usize, name: u8) -> bool
    requires offer { IsOffer offer.now }
    requires good { Good offer.now.plan.now (kept run.now) }
    requires told { IsToldAt offer.now at (pairs (kept run.now)) }
    ensures { result ≡ answer offer.now at (pairs (kept run.now)) name }
{
    if offer.is_told {
        offer.takers.has(name, at)
    } else {
        fits_name(offer.plan, run, offer.event, name)
    }
}

/// The names of an element that bind events are those from the first number on and below the second.
pub(crate) fn span(element: Element) -> (u8, u8)
    requires { IsNamed element }
    ensures names { binds element ≡ range_with_len result.0 (result.1 - result.0) }
    ensures few { (result.0 ≡ result.1) ⊎ (result.1 ≤ 32) }
    ensures ordered { result.0 ≤ result.1 }
{
    match element {
        Element::One(name) | Element::Plus(name) => (name, name + 1),
        Element::Set { first, count } => (first, first + count),
        Element::Never(_) => (0, 0),
    }
}

// Whether a run has bound an event to each name of the element that binds some.
fn is_filled(run: &Run, element: Element) -> bool
    requires good { (q : Plan) × Good q (kept run.now) }
    requires named { IsNamed element }
    ensures { result ≡ Runs.is_filled (pairs (kept run.now)) element }
{
    let (first, past) = span(element);
    for name in first..past {
        if !has(run, name) {
            return false;
        }
    }
    true
}

// How many elements in front the run has filled: the next one is the first that it hasn't filled.
fn filled_front(plan: &Plan, run: &Run) -> usize
    requires compiled { IsCompiled plan.now }
    requires good { Good plan.now (kept run.now) }
    ensures { next_element plan.now (pairs (kept run.now))
        ≡ slice_get plan.now.elements result }
{
    let elements = plan.elements.as_slice();
    for i in 0..elements.len() {
        if !is_filled(run, elements[i]) {
            return i;
        }
    }
    elements.len()
}

// The one of these elements that stands at this place.
fn one_of(elements: &[Element], place: usize) -> Option<Element>
    ensures { result ≡ slice_get elements.now place }
{
    elements.get(place).copied()
}

// The element at this place.
fn element_at(plan: &Plan, place: usize) -> Option<Element>
    requires compiled { IsCompiled plan.now }
    ensures element { result ≡ slice_get plan.now.elements place }
    ensures named { IfSome result IsNamed }
{
    one_of(plan.elements.as_slice(), place)
}

// The first element that the run hasn't filled.
fn first_unfilled(plan: &Plan, run: &Run) -> Option<Element>
    requires compiled { IsCompiled plan.now }
    requires good { Good plan.now (kept run.now) }
    ensures first { result ≡ next_element plan.now (pairs (kept run.now)) }
    ensures named { IfSome result IsNamed }
{
    element_at(plan, filled_front(plan, run))
}

// Whether the run has bound no event to the name, and takes the event under it.
fn takes_anew(offer: &Offer, run: &Run, at: usize, name: u8) -> bool
    requires offer { IsOffer offer.now }
    requires good { Good offer.now.plan.now (kept run.now) }
    requires told { IsToldAt offer.now at (pairs (kept run.now)) }
    requires named { name < 32 }
    ensures { result ≡ (not (is_bound (pairs (kept run.now)) name)
        && answer offer.now at (pairs (kept run.now)) name) }
{
    !has(run, name) && takes_as(offer, run, at, name)
}

// The first name that the run lacks of the element and under which it takes the event.
fn lacking(offer: &Offer, run: &Run, at: usize, element: Element) -> Option<u8>
    requires offer { IsOffer offer.now }
    requires good { Good offer.now.plan.now (kept run.now) }
    requires told { IsToldAt offer.now at (pairs (kept run.now)) }
    requires named { IsNamed element }
    ensures { result ≡ first_lacked (answer offer.now at (pairs (kept run.now)))
        (pairs (kept run.now)) (Some element) }
{
    let (first, past) = span(element);
    for name in first..past {
        if takes_anew(offer, run, at, name) {
            return Some(name);
        }
    }
    None
}

// Whether an element is the name once or more.
fn is_plus(name: u8, element: Element) -> bool
    ensures { result ≡ is_plus name element }
{
    match element {
        Element::Plus(own) => own == name,
        _ => false,
    }
}

// Whether the name may be bound more than once.
fn repeats(plan: &Plan, name: u8) -> bool
    ensures { result ≡ list_any (is_plus name) plan.now.elements }
{
    plan.elements
        .as_slice()
        .iter()
        .any(|element| is_plus(name, *element))
}

// The name, where it may be bound more than once.
fn repeated(plan: &Plan, name: u8) -> Option<u8>
    ensures { result ≡ (if list_any (is_plus name) plan.now.elements then Some name else None) }
{
    if repeats(plan, name) {
        Some(name)
    } else {
        None
    }
}

// The last name of a run, where it may be bound more than once.
fn last_again(plan: &Plan, run: &Run) -> Option<u8>
    requires compiled { IsCompiled plan.now }
    requires good { Good plan.now (kept run.now) }
    ensures { result ≡ last_again plan.now (pairs (kept run.now)) }
{
    match run.bound.last() {
        Some((name, _)) => repeated(plan, *name),
        None => None,
    }
}

// The name of an element that is negated.
fn negated(element: Element) -> Option<u8>
    ensures { result ≡ negated_name element }
{
    match element {
        Element::Never(name) => Some(name),
        _ => None,
    }
}

// Whether an element is negated.
fn is_negated(element: Element) -> bool
    ensures { result ≡ is_some (negated_name element) }
{
    matches!(element, Element::Never(_))
}

// How many of the elements are negated.
fn count_negated(elements: &[Element]) -> usize
    ensures { result ≡ negated_count elements.now }
{
    elements
        .iter()
        .filter(|element| is_negated(**element))
        .count()
}

/// How many names of the plan are negated.
pub(crate) fn negated_count(plan: &Plan) -> u32
    requires { IsCompiled plan.now }
    ensures count { result ≡ negated_count plan.now.elements }
    ensures few { result ≤ 32 }
{
    count_negated(plan.elements.as_slice()) as u32
}

// Whether a name of the plan is negated.
fn has_negated(plan: &Plan) -> bool
    ensures { result ≡ list_any (λ element. is_some (negated_name element)) plan.now.elements }
{
    plan.elements
        .as_slice()
        .iter()
        .any(|element| is_negated(*element))
}

// How many of the elements stand negated in front.
fn negated_front(elements: &[Element]) -> u8
    requires { length elements.now ≤ 32 }
    ensures { result ≡ length (Runs.leading elements.now) }
{
    for i in 0..elements.len() {
        if !is_negated(elements[i]) {
            return i as u8;
        }
    }
    elements.len() as u8
}

// The name of the first of the elements, where that is negated.
fn first_negated(elements: &[Element]) -> Option<u8>
    requires { All IsNamed elements.now }
    ensures name { result ≡ option_and_then negated_name (slice_get elements.now 0) }
    ensures few { IfSome result (λ name. name < 32) }
{
    negated(one_of(elements, 0)?)
}

// The names of the elements that stand negated in front: they are those from the first number on and below the second.
fn leading(elements: &[Element]) -> (u8, u8)
    requires named { All IsNamed elements.now }
    requires few { length elements.now ≤ 32 }
    ensures { result ≡ range_of (Runs.leading elements.now) }
{
    match first_negated(elements) {
        Some(name) => (name, name + negated_front(elements)),
        None => (0, 0),
    }
}

// Where the elements begin that stand behind that of the name: behind all, where the run hasn't filled that one.
fn behind(plan: &Plan, run: &Run, name: u8) -> usize
    requires compiled { IsCompiled plan.now }
    requires good { Good plan.now (kept run.now) }
    ensures elements { Runs.behind (pairs (kept run.now)) name plan.now.elements
        ≡ drop result plan.now.elements }
    ensures within { result ≤ length plan.now.elements }
{
    let elements = plan.elements.as_slice();
    for i in 0..elements.len() {
        if names(elements[i], name) {
            if is_filled(run, elements[i]) {
                return i + 1;
            }
            return elements.len();
        }
    }
    elements.len()
}

// The names that guard a run which has bound its last event to this name.
fn guards_behind(plan: &Plan, run: &Run, name: u8) -> (u8, u8)
    requires compiled { IsCompiled plan.now }
    requires good { Good plan.now (kept run.now) }
    ensures { result
        ≡ range_of (Runs.leading (Runs.behind (pairs (kept run.now)) name plan.now.elements)) }
{
    let place = behind(plan, run, name);
    leading(&plan.elements.as_slice()[place..])
}

// The names that guard a run. They stand behind the element of its last pair, from which they are looked for.
fn guards_of(plan: &Plan, run: &Run) -> (u8, u8)
    requires compiled { IsCompiled plan.now }
    requires good { Good plan.now (kept run.now) }
    ensures { result ≡ guard_range plan.now (pairs (kept run.now)) }
{
    if !has_negated(plan) {
        return (0, 0);
    }
    match run.bound.last() {
        Some((name, _)) => guards_behind(plan, run, *name),
        None => (0, 0),
    }
}

// What counts for a run next, by what it has bound.
fn look_ahead(plan: &Plan, run: &Run) -> Ahead
    requires compiled { IsCompiled plan.now }
    requires good { Good plan.now (kept run.now) }
    ensures ahead { IsAhead plan.now (pairs (kept run.now)) result }
    ensures element { IfSome result.element IsNamed }
{
    Ahead {
        element: first_unfilled(plan, run),
        again: last_again(plan, run),
        guards: guards_of(plan, run),
    }
}

// What counts for a run next, which is looked for only where the run doesn't keep it.
fn ahead_of(plan: &Plan, run: &Run) -> Ahead
    requires compiled { IsCompiled plan.now }
    requires good { Good plan.now (kept run.now) }
    ensures ahead { IsAhead plan.now (pairs (kept run.now)) result }
    ensures element { IfSome result.element IsNamed }
{
    match run.ahead {
        Some(ahead) => ahead,
        None => look_ahead(plan, run),
    }
}

/// Whether a run has filled every element.
pub(crate) fn is_complete(plan: &Plan, run: &Run) -> bool
    requires compiled { IsCompiled plan.now }
    requires good { Good plan.now (kept run.now) }
    ensures { result ≡ Runs.is_complete plan.now (pairs (kept run.now)) }
{
    ahead_of(plan, run).element.is_none()
}

// Whether this is the name.
fn is_again(again: Option<u8>, name: u8) -> bool
    ensures { result ≡ is_again name again }
{
    match again {
        Some(again) => again == name,
        None => false,
    }
}

/// What counts for a run next when it has bound the name, where that is known: the same as before, since it has
/// only bound its last name once more. None where it has to be looked for anew.
pub(crate) fn ahead_still(run: &Run, name: u8) -> Option<Ahead>
    ensures { result ≡ ahead_still name (kept run.now) }
{
    let ahead = run.ahead?;
    if is_again(ahead.again, name) {
        Some(ahead)
    } else {
        None
    }
}

// What counts for a run next, which is looked for only where it isn't known.
fn known_ahead(plan: &Plan, run: &Run, known: Option<Ahead>) -> Ahead
    requires compiled { IsCompiled plan.now }
    requires good { Good plan.now (kept run.now) }
    requires known { IfSome known (λ ahead. IsAhead plan.now (pairs (kept run.now)) ahead) }
    ensures { IsAhead plan.now (pairs (kept run.now)) result }
{
    match known {
        Some(ahead) => ahead,
        None => look_ahead(plan, run),
    }
}

/// What counts for the run next is kept in it from now on.
pub(crate) fn look_on(plan: &Plan, run: &mut Run, known: Option<Ahead>)
    requires compiled { IsCompiled plan.now }
    requires good { Good plan.now (kept run.old) }
    requires known { IfSome known (λ ahead. IsAhead plan.now (pairs (kept run.old)) ahead) }
    ensures { kept run.new ≡ looking plan.now (kept run.old) }
{
    let ahead = known_ahead(plan, run, known);
    run.ahead = Some(ahead);
}

// The name, which may be bound more than once, where the run takes the event under it.
fn once_more(offer: &Offer, run: &Run, at: usize, again: Option<u8>) -> Option<u8>
    requires offer { IsOffer offer.now }
    requires good { Good offer.now.plan.now (kept run.now) }
    requires told { IsToldAt offer.now at (pairs (kept run.now)) }
    ensures { result ≡ once_more (answer offer.now at (pairs (kept run.now))) again }
{
    let name = again?;
    if takes_as(offer, run, at, name) {
        Some(name)
    } else {
        None
    }
}

// The first name of the element that the run lacks and under which it takes the event.
fn onward(offer: &Offer, run: &Run, at: usize, element: Option<Element>) -> Option<u8>
    requires offer { IsOffer offer.now }
    requires good { Good offer.now.plan.now (kept run.now) }
    requires told { IsToldAt offer.now at (pairs (kept run.now)) }
    requires named { IfSome element IsNamed }
    ensures { result ≡ first_lacked (answer offer.now at (pairs (kept run.now)))
        (pairs (kept run.now)) element }
{
    match element {
        Some(element) => lacking(offer, run, at, element),
        None => None,
    }
}

/// The name under which the run at this place takes the event, if it takes it: of the first element not yet
/// filled the first name that it lacks, else its last name once more.
pub(crate) fn takes(offer: &Offer, run: &Run, at: usize) -> Option<u8>
    requires offer { IsOffer offer.now }
    requires good { Good offer.now.plan.now (kept run.now) }
    requires told { IsToldAt offer.now at (pairs (kept run.now)) }
    ensures { result ≡ Runs.takes offer.now.plan.now (pairs (kept run.now)) offer.now.event.now }
{
    let ahead = ahead_of(offer.plan, run);
    match onward(offer, run, at, ahead.element) {
        Some(name) => Some(name),
        None => once_more(offer, run, at, ahead.again),
    }
}

// Whether the event fulfils the predicate of one of the names from the first number on and below the second, for the run
// at this place.
fn fulfils_one(offer: &Offer, run: &Run, at: usize, first: u8, past: u8) -> bool
    requires offer { IsOffer offer.now }
    requires good { Good offer.now.plan.now (kept run.now) }
    requires told { IsToldAt offer.now at (pairs (kept run.now)) }
    ensures { result ≡ list_any (answer offer.now at (pairs (kept run.now)))
        (range_with_len first (past - first)) }
{
    for name in first..past {
        if takes_as(offer, run, at, name) {
            return true;
        }
    }
    false
}

/// Whether the event is held against the run at this place: it fulfils the predicate of a name that guards the run.
pub(crate) fn is_guarded(offer: &Offer, run: &Run, at: usize) -> bool
    requires offer { IsOffer offer.now }
    requires good { Good offer.now.plan.now (kept run.now) }
    requires told { IsToldAt offer.now at (pairs (kept run.now)) }
    ensures { result ≡ Runs.guarded offer.now.plan.now (pairs (kept run.now)) offer.now.event.now }
{
    let (first, past) = ahead_of(offer.plan, run).guards;
    fulfils_one(offer, run, at, first, past)
}

// Whether the name is one of those from the first number on and below the second.
fn is_within(first: u8, past: u8, name: u8) -> bool
    requires { first ≤ past }
    ensures { result ≡ is_among (range_with_len first (past - first)) name }
{
    first <= name && name < past
}

// Whether the name is one of the element's that bind events.
fn names(element: Element, name: u8) -> bool
    requires { IsNamed element }
    ensures { result ≡ is_among (binds element) name }
{
    let (first, past) = span(element);
    is_within(first, past, name)
}

// Whether the name guards a run.
fn guards(plan: &Plan, run: &Run, guards: (u8, u8), name: u8) -> bool
    requires compiled { IsCompiled plan.now }
    requires range { guards ≡ guard_range plan.now (pairs (kept run.now)) }
    ensures { result ≡ is_among (Runs.guards plan.now (pairs (kept run.now))) name }
{
    is_within(guards.0, guards.1, name)
}

// Whether the name is one of the element's that the run lacks.
fn lacks(run: &Run, element: Option<Element>, name: u8) -> bool
    requires good { (q : Plan) × Good q (kept run.now) }
    requires named { IfSome element IsNamed }
    requires few { name < 32 }
    ensures { result ≡ is_among (unbound (pairs (kept run.now)) element) name }
{
    match element {
        Some(element) => names(element, name) && !has(run, name),
        None => false,
    }
}

// Whether a run of which this counts next may take the name.
fn may_take(run: &Run, ahead: Ahead, name: u8) -> bool
    requires good { (q : Plan) × Good q (kept run.now) }
    requires element { IfSome ahead.element IsNamed }
    requires named { name < 32 }
    ensures { result ≡ (is_among (unbound (pairs (kept run.now)) ahead.element) name
        || is_again name ahead.again) }
{
    lacks(run, ahead.element, name) || is_again(ahead.again, name)
}

/// Whether the run may take the name next, or is guarded by it.
pub(crate) fn wants(plan: &Plan, run: &Run, name: u8) -> bool
    requires compiled { IsCompiled plan.now }
    requires good { Good plan.now (kept run.now) }
    requires named { name < 32 }
    ensures { result ≡ is_wanted plan.now (pairs (kept run.now)) name }
{
    let ahead = ahead_of(plan, run);
    may_take(run, ahead, name) || guards(plan, run, ahead.guards, name)
}
