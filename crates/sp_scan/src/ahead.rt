// What counts for a run next, looked for among the elements of the plan.
ghost use Rattle.std.specs.Prelude.{◌≡◌, ◌-◌, ◌<◌, ◌≤◌, ◌⊎◌, not, drop, find, length, IfSome};
ghost use Rattle.std.specs.List.{All, last_or, list_any, range_with_len};
ghost use Rattle.std.specs.Option.{option_to_list};
ghost use Rattle.sp_base.specs.Numbers.{is_among};
ghost use Rattle.sp_plan.specs.Compiled.{IsCompiled};
ghost use Rattle.sp_plan.specs.Runs as definitions;
ghost use Rattle.sp_plan.specs.Runs.{Run, again, binds, guards, is_plus, leading, unbound};
ghost use Rattle.sp_scan.specs.inside.Ahead.{AreIn, IsAhead, IsNamed, Keeps};

use crate::pairs::Pairs;
use crate::run::Ahead;
use sp_plan::{Element, Plan, with_bit};

/// The names of an element that bind events are those from the first number on and below the second.
pub(crate) fn span(element: Element) -> (u8, u8)
    requires { IsNamed element }
    ensures names { binds element ≡ range_with_len result.0 (result.1 - result.0) }
    ensures ordered { result.0 ≤ result.1 }
    ensures few { result.0 < result.1 → result.1 ≤ 32 }
{
    match element {
        Element::One(name) | Element::Plus(name) => (name, name + 1),
        Element::Set { first, count } => (first, first + count),
        Element::Never(_) => (0, 0),
    }
}

// Whether an event is bound to each name of the element that binds some, name by name.
fn all_bound(pairs: &Pairs, element: Element) -> bool
    requires { IsNamed element }
    ensures { result ≡ definitions.is_filled pairs.now element }
{
    let (first, past) = span(element);
    for name in first..past {
        if !pairs.has(name) {
            return false;
        }
    }
    true
}

// The same, which is mostly of a single name.
fn is_filled(pairs: &Pairs, element: Element) -> bool
    requires { IsNamed element }
    ensures { result ≡ definitions.is_filled pairs.now element }
{
    match element {
        Element::One(name) | Element::Plus(name) => pairs.has(name),
        set => all_bound(pairs, set),
    }
}

// The first element that isn't filled.
fn unfilled(plan: &Plan, pairs: &Pairs) -> Option<Element>
    requires { IsCompiled plan.now }
    ensures { result
        ≡ find (λ element. not (definitions.is_filled pairs.now element)) plan.now.elements }
{
    for element in plan.elements.as_slice() {
        if !is_filled(pairs, *element) {
            return Some(*element);
        }
    }
    None
}

// Whether the name may be bound more than once.
fn repeats(plan: &Plan, name: u8) -> bool
    ensures { result ≡ list_any (is_plus name) plan.now.elements }
{
    let elements = plan.elements.as_slice();
    elements.iter().any(|element| matches!(element, Element::Plus(own) if *own == name))
}

// The name that was bound last, where it may be bound more than once.
fn again(plan: &Plan, pairs: &Pairs) -> Option<u8>
    ensures { option_to_list result ≡ again plan.now.elements (last_or None pairs.now) }
{
    let name = pairs.last_name()?;
    if repeats(plan, name) {
        Some(name)
    } else {
        None
    }
}

// Whether the name is one of the element's that bind events.
fn names(element: Element, name: u8) -> bool
    requires { IsNamed element }
    ensures { result ≡ is_among (binds element) name }
{
    let (first, past) = span(element);
    first <= name && name < past
}

// Where the elements begin that stand behind that of the name: behind all, where that one isn't filled.
fn behind(plan: &Plan, pairs: &Pairs, name: u8) -> usize
    requires { IsCompiled plan.now }
    ensures elements { drop result plan.now.elements
        ≡ definitions.behind pairs.now name plan.now.elements }
    ensures within { result ≤ length plan.now.elements }
{
    let elements = plan.elements.as_slice();
    for place in 0..elements.len() {
        if names(elements[place], name) {
            if is_filled(pairs, elements[place]) {
                return place + 1;
            }
            return elements.len();
        }
    }
    elements.len()
}

// Where the elements begin of which those guard a run of these pairs that stand negated in front.
fn guards(plan: &Plan, pairs: &Pairs) -> usize
    requires { IsCompiled plan.now }
    ensures guards { leading (drop result plan.now.elements) ≡ guards plan.now pairs.now }
    ensures within { result ≤ length plan.now.elements }
{
    match pairs.last_name() {
        Some(name) => behind(plan, pairs, name),
        None => plan.elements.as_slice().len(),
    }
}

// The names that stand negated in front of these elements, as bits of a number.
fn leading(elements: &[Element]) -> u64
    requires { All IsNamed elements.now }
    ensures { AreIn result (leading elements.now) }
{
    let mut all = 0;
    for element in elements {
        match element {
            Element::Never(name) => all = with_bit(all, *name as usize, true),
            _ => return all,
        }
    }
    all
}

// A mask with a name too that may be there.
fn with_name(mask: u64, name: Option<u8>) -> u64
    requires { IfSome name (λ name. name < 32) }
    ensures kept { Keeps mask result }
    ensures own { AreIn result (option_to_list name) }
{
    match name {
        Some(name) => with_bit(mask, name as usize, true),
        None => mask,
    }
}

// A mask with the names too to which an element that may be there binds events.
fn with_element(mask: u64, element: Option<Element>) -> u64
    requires { IfSome element IsNamed }
    ensures kept { Keeps mask result }
    ensures own { IfSome element (λ element. AreIn result (binds element)) }
{
    let Some(element) = element else {
        return mask;
    };
    let (first, past) = span(element);
    let mut all = mask;
    for name in first..past {
        all = with_bit(all, name as usize, true);
    }
    all
}

// The names of the element, the one that may be bound once more, and those that stand negated in front of the elements
// from the place on.
fn counting(plan: &Plan, element: Option<Element>, again: Option<u8>, behind: usize) -> u64
    requires compiled { IsCompiled plan.now }
    requires element { IfSome element IsNamed }
    requires again { IfSome again (λ name. name < 32) }
    requires within { behind ≤ length plan.now.elements }
    ensures element { IfSome element (λ element. AreIn result (binds element)) }
    ensures again { AreIn result (option_to_list again) }
    ensures guards { AreIn result (leading (drop behind plan.now.elements)) }
{
    let guards = leading(&plan.elements.as_slice()[behind..]);
    with_element(with_name(guards, again), element)
}

/// What counts for a run of these pairs next.
pub(crate) fn look_ahead(plan: &Plan, pairs: &Pairs) -> Ahead
    requires { IsCompiled plan.now }
    ensures { IsAhead plan.now pairs.now result }
{
    let element = unfilled(plan, pairs);
    let again = again(plan, pairs);
    let behind = guards(plan, pairs);
    Ahead {
        element,
        again,
        behind,
        names: counting(plan, element, again, behind),
    }
}
