// The definitions of a query, and the names of its plan.
ghost use Rattle.std.specs.Prelude.{◌≡◌, ◌<◌, ℕ, List, [], map, length, slice_set, slice_index_or, Some, None, IfOk, IfErr};
ghost use Rattle.std.specs.List.{All, list_any};
ghost use Rattle.std.specs.Str.{bytes_eq};
ghost use Rattle.sp_plan.specs.declared.plan.Name.{Name};
ghost use Rattle.sp_plan.specs.declared.plan.Pred.{Always};
ghost use Rattle.sp_plan.specs.Bounds.{PredWithin};
ghost use Rattle.sp_compile.specs.Answers.{IsNamed, PredAnswer, scope_in};
ghost use Rattle.sp_compile.specs.Checks as checks;
ghost use Rattle.sp_compile.specs.Naming.{StandSoFar, PlaceAnswer, AreNames, Misdefines};
ghost use Rattle.sp_compile.specs.Scopes as scopes;
ghost use Rattle.sp_compile.specs.Stands as stands;

use crate::CompileFault;
use crate::consume::is_consumed;
use crate::elements::PlacedName;
use crate::lookup::given_place;
use crate::predicate::predicate;
use crate::scope::Scope;
use sp_plan::{Listed, Memory, Name, Pred, Text};
use sp_query::{Ident, Query, Tree};
use std::alloc::Global;

// Whether one of these definitions is of a name with the text.
fn is_defined(before: &[(Ident, Tree)], text: &Text) -> bool
    ensures { result ≡ list_any (λ define. bytes_eq text.now define.0.text) before.now }
{
    before
        .iter()
        .any(|define| text.as_str() == define.0.text.as_str())
}

// The place of the name of the pattern that a definition behind these is of.
fn defined_place(
    names: &[PlacedName],
    before: &[(Ident, Tree)],
    name: &Ident,
) -> Result<usize, CompileFault>
    ensures { PlaceAnswer names.now (map (λ define. define.0.text) before.now) name.now result }
{
    given_place(names, name, is_defined(before, &name.text))
}

// A name of the plan without a definition.
fn undefined_name(alloc: Global, query: &Query, named: &PlacedName) -> Result<Name, Memory>
    ensures { IfOk result
        (λ planned. planned
        ≡ record {
          text = named.now.name.text;
          pred = Always;
          consumed = stands.is_consumed
              query.now.consume named.now;
        }) }
{
    Ok(Name {
        text: named.name.text.copy(alloc)?,
        pred: Pred::Always,
        consumed: is_consumed(&query.consume, named),
    })
}

// The names of the plan, none of which has a definition so far.
fn undefined_names(alloc: Global, query: &Query, names: &[PlacedName]) -> Result<Vec<Name>, Memory>
    ensures stand { IfOk result
        (λ planned. (texts : List (List ℕ))
        → StandSoFar query.now texts [] names.now planned.items) }
    ensures within { IfOk result (λ planned. All (λ name. PredWithin name.pred) planned.items) }
{
    let mut planned = Vec::with_capacity(alloc, names.len())?;
    for named in names {
        planned.push(undefined_name(alloc, query, named)?)?;
    }
    Ok(planned)
}

// The predicate of a name's definition, or its first fault.
fn defined_pred(
    alloc: Global,
    query: &Query,
    names: &[PlacedName],
    texts: &[Text],
    named: &PlacedName,
    tree: &Tree,
) -> Result<Pred, CompileFault>
    requires named { IsNamed query.now }
    requires names { names.now ≡ scopes.pattern_names query.now }
    ensures { PredAnswer (scope_in query.now (Some named.now.element)) texts.now tree.now result }
{
    let scope = Scope {
        columns: query.columns.as_slice(),
        names,
        here: Some(named.element),
        at_hand: true,
        known: &[],
    };
    predicate(alloc, &scope, texts, tree)
}

// Gives the name of this place its predicate.
fn set_pred(planned: &mut Vec<Name>, place: usize, pred: Pred)
    requires { place < length planned.old.items }
    ensures { (other : Name)
        → planned.new.items
        ≡ slice_set planned.old.items place
        (record {
          text = (slice_index_or planned.old.items place other).text;
          pred = pred;
          consumed = (slice_index_or planned.old.items place other).consumed;
        }) }
{
    planned[place].pred = pred;
}

/// The names of the plan with the predicates of their definitions, or the first fault of these.
pub(crate) fn definitions(
    alloc: Global,
    query: &Query,
    names: &[PlacedName],
    texts: &[Text],
) -> Result<Listed<Name>, CompileFault>
    requires named { IsNamed query.now }
    requires names { names.now ≡ scopes.pattern_names query.now }
    requires fine { checks.names_fault [] names.now ≡ None }
    ensures names { IfOk result (λ planned. AreNames query.now texts.now planned) }
    ensures refused { IfErr result (λ fault. Misdefines query.now fault) }
{
    let mut planned = undefined_names(alloc, query, names)?;
    let defines = query.defines.as_slice();
    for (at, define) in defines.iter().enumerate() {
        let place = defined_place(names, &defines[..at], &define.0)?;
        let pred = defined_pred(alloc, query, names, texts, &names[place], &define.1)?;
        set_pred(&mut planned, place, pred);
    }
    Ok(Listed::of(planned))
}
