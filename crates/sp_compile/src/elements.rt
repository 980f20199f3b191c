// The elements of a pattern and their names.
ghost use Rattle.std.specs.Prelude.{◌≡◌, ◌≤◌, ◌+◌, [], length, map, None, IfOk};
ghost use Rattle.std.specs.List.{last_or, list_all};
ghost use Rattle.sp_compile.specs.Checks as checks;
ghost use Rattle.sp_compile.specs.Scopes as scopes;
ghost use Rattle.sp_compile.specs.Stages as stages;
ghost use Rattle.sp_compile.specs.Stands as stands;

use crate::CompileFault;
use crate::lookup::name_place;
use sp_plan::Element;
use sp_query::{Ident, QueryElement};
use std::alloc::{AllocError, Global};
use std::marker::Model;

/// How many names a pattern may have.
const MOST_NAMES: usize = 32;

/// A name of the pattern, the number of its element from 0, and whether it is negated.
#[derive(Drop)]
pub struct PlacedName<'a> {
    pub name: &'a Ident,
    pub element: usize,
    pub negated: bool,
}

impl<'a> Model for PlacedName<'a> {
    ghost use Rattle.sp_compile.specs.Scopes.{PatternName};

    ghost Value = { PatternName };

    ghost view = { λ named.
        record { name = named.name.now; element = named.element; negated = named.negated } };
}

/// The names of an element.
pub(crate) fn names_in(element: &QueryElement) -> &[Ident]
    ensures { result.now ≡ scopes.names_in element.now }
{
    match element {
        QueryElement::One(name) | QueryElement::Plus(name, _) | QueryElement::Never(name, _) => {
            std::slice::from_ref(name)
        }
        QueryElement::Set(names) => names.as_slice(),
    }
}

// Whether an element is a negated name.
fn is_negated(element: &QueryElement) -> bool
    ensures { result ≡ scopes.is_negated element.now }
{
    match element {
        QueryElement::Never(_, _) => true,
        _ => false,
    }
}

/// The names of the pattern, from the left.
pub(crate) fn pattern_names<'a>(
    alloc: Global,
    elements: &'a [QueryElement],
) -> Result<Vec<PlacedName<'a>>, AllocError>
    ensures { IfOk result (λ names. names.items ≡ scopes.placed_names 0 elements.now) }
{
    let mut names = Vec::new(alloc);
    for (number, element) in elements.iter().enumerate() {
        let negated = is_negated(element);
        for name in names_in(element) {
            names.push(PlacedName {
                name,
                element: number,
                negated,
            })?;
        }
    }
    Ok(names)
}

// What is wrong with a name behind these.
fn name_fault(before: &[PlacedName], name: &Ident) -> Option<CompileFault>
    ensures { result ≡ checks.name_fault (map (λ name. name.name.text) before.now) name.now }
{
    if before.len() >= MOST_NAMES {
        Some(CompileFault::TooMany(name.span))
    } else if name_place(before, &name.text).is_some() {
        Some(CompileFault::Twice(name.span))
    } else {
        None
    }
}

/// The first fault of the names, from the left.
pub(crate) fn names_fault(names: &[PlacedName]) -> Option<CompileFault>
    ensures { result ≡ checks.names_fault [] names.now }
{
    for (at, named) in names.iter().enumerate() {
        if let Some(fault) = name_fault(&names[..at], named.name) {
            return Some(fault);
        }
    }
    None
}

/// What is wrong with the first element: it is negated.
pub(crate) fn first_fault(elements: &[QueryElement]) -> Option<CompileFault>
    ensures { result ≡ checks.first_fault elements.now }
{
    match elements {
        [QueryElement::Never(_, span), ..] => Some(CompileFault::NeverEnds(*span)),
        _ => None,
    }
}

/// What is wrong with the last element: it is one event or more, or negated.
#[tactic(auto, using(crate::proofs::LastElement::last_is))]
pub(crate) fn last_fault(elements: &[QueryElement]) -> Option<CompileFault>
    ensures { result ≡ checks.last_fault (last_or None elements.now) }
{
    match elements.last()? {
        QueryElement::Plus(_, span) => Some(CompileFault::PlusLast(*span)),
        QueryElement::Never(_, span) => Some(CompileFault::NeverEnds(*span)),
        QueryElement::One(_) | QueryElement::Set(_) => None,
    }
}

// Whether an element has as many names as a text gives it: a set has two or more.
fn is_wide(element: &QueryElement) -> bool
    ensures { result ≡ stages.is_wide element.now }
{
    match element {
        QueryElement::Set(names) => names.len() >= 2,
        _ => true,
    }
}

/// Whether all elements have as many names as a text gives them.
pub(crate) fn are_wide(elements: &[QueryElement]) -> bool
    ensures { result ≡ list_all stages.is_wide elements.now }
{
    elements.iter().all(|element| is_wide(element))
}

// How many names an element has.
fn width(element: &QueryElement) -> usize
    ensures { result ≡ stands.width element.now }
{
    match element {
        QueryElement::Set(names) => names.len(),
        _ => 1,
    }
}

// An element of the plan, of which the first name has this number.
fn plan_element(first: usize, element: &QueryElement) -> Element
    requires { first + stands.width element.now ≤ 32 }
    ensures { result ≡ stands.plan_element first element.now }
{
    let first = first as u8;
    match element {
        QueryElement::One(_) => Element::One(first),
        QueryElement::Plus(_, _) => Element::Plus(first),
        QueryElement::Set(names) => Element::Set {
            first,
            count: names.len() as u8,
        },
        QueryElement::Never(_, _) => Element::Never(first),
    }
}

/// The elements of the plan.
pub(crate) fn plan_elements(
    alloc: Global,
    elements: &[QueryElement],
) -> Result<Vec<Element>, AllocError>
    requires { length (scopes.placed_names 0 elements.now) ≤ 32 }
    ensures { IfOk result (λ planned. planned.items ≡ stands.plan_elements 0 elements.now) }
{
    let mut planned = Vec::with_capacity(alloc, elements.len())?;
    let mut first = 0;
    for element in elements {
        planned.push(plan_element(first, element))?;
        first += width(element);
    }
    Ok(planned)
}
