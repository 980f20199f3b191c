// A whole query to its plan.
ghost use Rattle.std.specs.Prelude.{◌≡◌, None, IfOk, IfErr, Option};
ghost use Rattle.sp_compile.specs.declared.fault.CompileFault.{CompileFault};
ghost use Rattle.sp_compile.specs.Answers.{IsNamed};
ghost use Rattle.sp_compile.specs.Checks as checks;
ghost use Rattle.sp_compile.specs.Checks.{Checks};
ghost use Rattle.sp_compile.specs.Stages.{NamesPass, EndPasses, Misends, plan_of, plan_schema};
ghost use Rattle.sp_compile.specs.Stands as stands;
ghost use Rattle.sp_compile.specs.Told.{IsPlanOf, Refuses, IsFound};

use crate::CompileFault;
use crate::columns::{columns_fault, schema, time_fault};
use crate::consume::consume_fault;
use crate::definitions::definitions;
use crate::elements::{
    PlacedName, are_wide, first_fault, last_fault, names_fault, pattern_names, plan_elements,
};
use crate::fault::{checked, pass};
use crate::opening::opening;
use crate::texts::texts;
use crate::window::{length_fault, plan_length};
use sp_plan::{Element, Listed, Name, Opening, Plan, Schema, Select, Text};
use sp_query::{Query, Word};
use std::alloc::{AllocError, Global};

// The names of the pattern, where columns and elements have no fault.
fn named(alloc: Global, query: &Query) -> Result<Vec<PlacedName>, CompileFault>
    ensures named { IfOk result (λ names. NamesPass query.now names.items) }
    ensures refused { IfErr result (λ fault. Refuses query.now fault) }
{
    pass(columns_fault(query.columns.as_slice()))?;
    pass(time_fault(query.columns.as_slice(), &query.time))?;
    let names = pattern_names(alloc, query.elements.as_slice())?;
    pass(names_fault(&names))?;
    pass(first_fault(query.elements.as_slice()))?;
    pass(last_fault(query.elements.as_slice()))?;
    if names.is_empty() || !are_wide(query.elements.as_slice()) {
        // No text has such a pattern.
        return Err(CompileFault::Memory);
    }
    Ok(names)
}

// Which partial matches there are in a window of the plan.
fn plan_select(select: Word) -> Select
    ensures { result ≡ stands.plan_select select }
{
    match select {
        Word::Last => Select::Last,
        Word::Each => Select::Each,
        _ => Select::First,
    }
}

// The columns of the plan, and its elements.
fn shape(alloc: Global, query: &Query) -> Result<(Schema, Listed<Element>), AllocError>
    requires { IsNamed query.now }
    ensures { IfOk result
        (λ shape. (shape.0 ≡ plan_schema query.now)
        × (shape.1 ≡ stands.plan_elements 0 query.now.elements)) }
{
    let schema = schema(alloc, query)?;
    let elements = plan_elements(alloc, query.elements.as_slice())?;
    Ok((schema, Listed::of(elements)))
}

// The plan of these parts.
fn joined(
    query: &Query,
    shape: (Schema, Listed<Element>),
    names: Listed<Name>,
    opening: Opening,
    texts: Vec<Text>,
) -> Plan
    requires length { checks.length_fault query.now ≡ None }
    requires shape { (shape.0 ≡ plan_schema query.now)
        × (shape.1 ≡ stands.plan_elements 0 query.now.elements) }
    ensures { result ≡ plan_of query.now names opening texts.items }
{
    let (schema, elements) = shape;
    Plan {
        schema,
        names,
        elements,
        select: plan_select(query.select),
        length: plan_length(query.length.0, query.length.1),
        opening,
        texts: Listed::of(texts),
    }
}

// The opening of the plan, or the first fault behind the definitions.
fn opened(
    alloc: Global,
    query: &Query,
    names: &[PlacedName],
    texts: &[Text],
) -> Result<Opening, CompileFault>
    requires { NamesPass query.now names.now }
    ensures passes { IfOk result (λ opening. EndPasses query.now texts.now opening) }
    ensures refused { IfErr result (λ fault. Misends query.now fault) }
{
    pass(length_fault(query))?;
    let opening = opening(alloc, query, names, texts)?;
    checked(opening, consume_fault(query, names))
}

// The plan of a query whose columns and elements have no fault, or its first fault.
fn planned(alloc: Global, query: &Query, names: &[PlacedName]) -> Result<Plan, CompileFault>
    requires { NamesPass query.now names.now }
    ensures plan { IfOk result (λ plan. IsPlanOf plan query.now) }
    ensures refused { IfErr result (λ fault. Refuses query.now fault) }
{
    let texts = texts(alloc, query)?;
    let planned = definitions(alloc, query, names, &texts)?;
    let shape = shape(alloc, query)?;
    let opening = opened(alloc, query, names, &texts)?;
    Ok(joined(query, shape, planned, opening, texts))
}

/// The plan of a query that a text has, or the query's first fault, in the order of the checks. Want of
/// memory may come at any point, and leaves nothing behind. It is also the answer for what no text has,
/// where no fault stands before it: an operator with another count of parts, a number past 10^15 or of
/// more than six decimals, a pattern without a name, a SET of one name.
pub fn compile(alloc: Global, query: &Query) -> Result<Plan, CompileFault>
    ensures plan { IfOk result (λ plan. IsPlanOf plan query.now) }
    ensures refused { IfErr result (λ fault. Refuses query.now fault) }
    ensures only { (found : Option CompileFault) → Checks query.now found → IsFound found result }
{
    let names = named(alloc, query)?;
    planned(alloc, query, &names)
}
