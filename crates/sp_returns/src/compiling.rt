// From items to the expressions of the second query's columns.
ghost use Rattle.std.specs.Prelude.{◌≡◌, ◌⊎◌, ◌<◌, ◌∷◌, ◌++◌, [], length, map, Option, Some, None, IfOk, IfErr, MatchResult, OnOk, slice_set};
ghost use Rattle.std.specs.List.{All};
ghost use Rattle.sp_plan.specs.declared.plan.Plan.{Plan};
ghost use Rattle.sp_plan.specs.Compiled.{AreApart, IsCompiled, IsKind};
ghost use Rattle.sp_compile.specs.declared.fault.CompileFault.{CompileFault};
ghost use Rattle.sp_compile.specs.Answers.{AreNamed};
ghost use Rattle.sp_graph.specs.Returns.{AreReturns};
ghost use Rattle.sp_returns.specs.Answers.{AreSlots, EmptyAnswer, Gone, Misreturns, ReturnsAnswer, TargetAnswer};
ghost use Rattle.sp_returns.specs.Checks as checks;
ghost use Rattle.sp_returns.specs.Checks.{ReturnsFault};
ghost use Rattle.sp_returns.specs.Scopes.{item_scope};
ghost use Rattle.sp_returns.specs.Stands.{IsReturnsOf, RefusesReturns};

use crate::item::Return;
use crate::scope::{idents, placed_names, query_columns};
use crate::suited::fitted;
use sp_compile::CompileFault;
use sp_compile::scope::Scope;
use sp_plan::{Column, Expr, Memory, Plan, Schema, Text};
use sp_query::Span;
use std::alloc::Global;

// The place of the first column of this name.
fn column_place(columns: &[Column], text: &Text) -> Option<usize>
    ensures { result ≡ checks.column_place columns.now text.now }
{
    columns
        .iter()
        .position(|column| column.name.as_str() == text.as_str())
}

// Whether one of these items is for the column of this name.
fn is_returned(returns: &[Return], text: &Text) -> bool
    ensures { result ≡ checks.is_returned returns.now text.now }
{
    returns
        .iter()
        .any(|item| item.name.text.as_str() == text.as_str())
}

// The place of the column that an item behind these is for, or what is wrong with its name.
fn target_place(columns: &[Column], before: &[Return], item: &Return) -> Result<usize, CompileFault>
    ensures { TargetAnswer columns.now before.now item.now result }
{
    let name = &item.name;
    match column_place(columns, &name.text) {
        None => Err(CompileFault::Unknown(name.span)),
        Some(_) if is_returned(before, &name.text) => Err(CompileFault::Twice(name.span)),
        Some(place) => Ok(place),
    }
}

// A slot for each column, with nothing in it.
fn empty_slots(alloc: Global, columns: &[Column]) -> Result<Vec<Option<Expr>>, Memory>
    ensures { IfOk result
        (λ slots. (from : Plan) → AreSlots from [] columns.now slots.items) }
{
    let mut slots = Vec::with_capacity(alloc, columns.len())?;
    for _column in columns {
        slots.push(None)?;
    }
    Ok(slots)
}

// Puts an expression into the slot of this place.
fn fill(slots: &mut Vec<Option<Expr>>, place: usize, expr: Expr)
    requires { place < length slots.old.items }
    ensures { slots.new.items ≡ slice_set slots.old.items place (Some expr) }
{
    slots[place] = Some(expr);
}

// The slots of the columns once all items were gone through, or their first fault.
fn slots(
    alloc: Global,
    returns: &[Return],
    scope: &Scope,
    from: &Plan,
    columns: &[Column],
) -> Result<Vec<Option<Expr>>, CompileFault>
    requires scope { scope.now ≡ item_scope from.now }
    requires named { AreNamed scope.now.columns scope.now.names }
    requires kinds { All (λ column. IsKind column.kind) columns.now }
    requires apart { AreApart (map (λ column. column.name) columns.now) }
    ensures gone { IfOk result (λ slots. Gone from.now returns.now columns.now slots.items) }
    ensures refused { IfErr result (λ fault. Misreturns from.now returns.now columns.now fault) }
{
    let texts = from.texts.as_slice();
    let mut slots = empty_slots(alloc, columns)?;
    for (at, item) in returns.iter().enumerate() {
        let place = target_place(columns, &returns[..at], item)?;
        let expr = fitted(alloc, scope, texts, columns[place].kind, &item.tree)?;
        fill(&mut slots, place, expr);
    }
    Ok(slots)
}

// The empty place behind the last item.
#[tactic(auto, using(crate::proofs::Named::last_item))]
fn behind(returns: &[Return]) -> Span
    ensures { result ≡ checks.behind returns.now }
{
    let end = match returns.last() {
        Some(item) => item.name.span.to,
        None => 0,
    };
    Span { from: end, to: end }
}

// Puts an expression behind others.
fn add(exprs: &mut Vec<Expr>, expr: Expr) -> Result<(), Memory>
    ensures { OnOk result (exprs.new.items ≡ exprs.old.items ++ expr ∷ []) }
{
    exprs.push(expr)?;
    Ok(())
}

// What is in the slots, where none is empty.
fn filled(alloc: Global, slots: Vec<Option<Expr>>, behind: Span) -> Result<Vec<Expr>, CompileFault>
    ensures all { IfOk result (λ exprs. slots.items ≡ map (λ expr. Some expr) exprs.items) }
    ensures empty { IfErr result (λ fault. EmptyAnswer behind slots.items fault) }
{
    let mut exprs = Vec::with_capacity(alloc, slots.len())?;
    for slot in slots {
        match slot {
            Some(expr) => add(&mut exprs, expr)?,
            None => return Err(CompileFault::Unknown(behind)),
        }
    }
    Ok(exprs)
}

// The expressions of items, or their first fault.
fn compiled(
    alloc: Global,
    returns: &[Return],
    from: &Plan,
    into: &Schema,
) -> Result<Vec<Expr>, CompileFault>
    requires from { IsCompiled from.now }
    requires kinds { All (λ column. IsKind column.kind) into.now.columns }
    requires apart { AreApart (map (λ column. column.name) into.now.columns) }
    ensures { ReturnsAnswer returns.now from.now into.now result }
{
    let columns = query_columns(alloc, from.schema.columns.as_slice())?;
    let idents = idents(alloc, from.names.as_slice())?;
    let names = placed_names(alloc, from.elements.as_slice(), &idents)?;
    let scope = Scope {
        columns: &columns,
        names: &names,
        here: Some(1),
        at_hand: false,
        known: from.texts.as_slice(),
    };
    let slots = slots(alloc, returns, &scope, from, into.columns.as_slice())?;
    filled(alloc, slots, behind(returns))
}

/// The expressions of items that a text has, one for each column of the second query, in their order, or
/// the items' first fault: from the left, and then columns without an item. A name is one of the first
/// query, and stands for the last event that is bound to it; a bare name is `Unknown`, and so is a text
/// that isn't among those of the first query. Want of memory may come at any point, and leaves nothing
/// behind.
pub fn compile_returns(
    alloc: Global,
    returns: &[Return],
    from: &Plan,
    into: &Schema,
) -> Result<Vec<Expr>, CompileFault>
    requires from { IsCompiled from.now }
    requires kinds { All (λ column. IsKind column.kind) into.now.columns }
    requires apart { AreApart (map (λ column. column.name) into.now.columns) }
    ensures returns { IfOk result
        (λ exprs. IsReturnsOf returns.now from.now into.now exprs.items) }
    ensures suit { (second : Plan) → second.schema ≡ into.now
        → IfOk result (λ exprs. AreReturns from.now second exprs.items) }
    ensures refused { IfErr result (λ fault. RefusesReturns returns.now from.now into.now fault) }
    ensures only { (found : Option CompileFault) → ReturnsFault from.now into.now returns.now found
        → MatchResult result (λ exprs. found ≡ None)
        (λ fault. (found ≡ Some fault) ⊎ (fault ≡ CompileFault.Memory)) }
{
    compiled(alloc, returns, from, into)
}
