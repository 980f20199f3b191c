// The names of a plan with their events, in front of a text.
ghost use Rattle.std.specs.Prelude.{◌≡◌, ◌≢◌, ◌++◌, List, ℕ, IfOk, MatchOption, OnOk, codes, slice_get};
ghost use Rattle.sp_plan.specs.Lines.{name_text};
ghost use Rattle.sp_plan.specs.Runs;
ghost use Rattle.sp_plan.specs.Runs.{binds};
ghost use Rattle.sp_emit.specs.Reading.{Answers, BindingAt, BindingsAt};

use crate::front::behind;
use crate::places::places_at;
use sp_plan::{Element, Memory, Places, Plan};
use std::alloc::Global;

// What is behind a blank, the name and `=`.
fn behind_name<'a>(text: &'a [u8], name: &[u8]) -> Option<&'a [u8]>
    ensures { MatchOption result
        ((rest : List ℕ) → text.now ≢ codes " " ++ (name.now ++ (codes "=" ++ rest)))
        (λ rest. text.now ≡ codes " " ++ (name.now ++ (codes "=" ++ rest.now))) }
{
    behind(behind(behind(text, b" ")?, name)?, b"=")
}

// The events of this name, and the rest.
fn binding_at<'a>(
    alloc: Global,
    name: &[u8],
    text: &'a [u8],
) -> Result<Option<(Places, &'a [u8])>, Memory>
    ensures { IfOk result (Answers (BindingAt name.now text.now) (λ p. (p.0, p.1.now))) }
{
    match behind_name(text, name) {
        Some(rest) => places_at(alloc, rest),
        None => Ok(None),
    }
}

// Adds the names of an element to which events are bound.
fn push_names(names: &mut Vec<u16>, element: Element) -> Result<(), Memory>
    ensures { OnOk result (names.new.items ≡ names.old.items ++ binds element) }
{
    match element {
        Element::One(name) | Element::Plus(name) => Ok(names.push(u16::from(name))?),
        Element::Set { first, count } => {
            for place in 0..count {
                names.push(u16::from(first) + u16::from(place))?;
            }
            Ok(())
        }
        Element::Never(_) => Ok(()),
    }
}

// The names of the plan that aren't negated, in their order. They are looked for element by element, since what is
// asked for holds for any plan, also for one that no query has.
fn bound_names(alloc: Global, plan: &Plan) -> Result<Vec<u16>, Memory>
    ensures { IfOk result (λ names. names.items ≡ Runs.bound_names plan.now) }
{
    let mut names = Vec::with_capacity(alloc, plan.names.as_slice().len())?;
    for element in plan.elements.as_slice() {
        push_names(&mut names, *element)?;
    }
    Ok(names)
}

// The text of a name; none where the plan has no such name.
fn text_of(plan: &Plan, name: u16) -> &[u8]
    ensures { result.now ≡ name_text (slice_get plan.now.names name) }
{
    match plan.names.as_slice().get(name as usize) {
        Some(own) => own.text.as_str().as_bytes(),
        None => b"",
    }
}

/// Each name of the plan that isn't negated with its events, and what is behind ` used=` after them; None exactly where
/// they aren't all in front, in the order of the plan.
pub(crate) fn bindings_at<'a>(
    alloc: Global,
    plan: &Plan,
    text: &'a [u8],
) -> Result<Option<(Vec<(u8, Places)>, &'a [u8])>, Memory>
    ensures { IfOk result (Answers (BindingsAt plan.now text.now) (λ p. (p.0.items, p.1.now))) }
{
    let names = bound_names(alloc, plan)?;
    let mut bound = Vec::with_capacity(alloc, names.len())?;
    let mut rest = text;
    for name in &names {
        let Ok(number) = u8::try_from(*name) else {
            return Ok(None);
        };
        let Some((places, after)) = binding_at(alloc, text_of(plan, *name), rest)? else {
            return Ok(None);
        };
        bound.push((number, places))?;
        rest = after;
    }
    match behind(rest, b" used=") {
        Some(after) => Ok(Some((bound, after))),
        None => Ok(None),
    }
}
