// Which events open the windows of a query's plan.
ghost use Rattle.std.specs.Prelude.{◌≡◌, true, Some, None, IfOk, IfErr, if◌then◌else◌};
ghost use Rattle.sp_compile.specs.declared.fault.CompileFault.TheVariants as f;
ghost use Rattle.sp_compile.specs.Answers.{IsNamed, PredAnswer, scope_in};
ghost use Rattle.sp_compile.specs.Checks as checks;
ghost use Rattle.sp_compile.specs.Scopes.{pattern_names};
ghost use Rattle.sp_compile.specs.Stages.{OpeningPasses, Misopens};
ghost use Rattle.sp_compile.specs.Stands as stands;

use crate::CompileFault;
use crate::elements::PlacedName;
use crate::fault::pass;
use crate::predicate::predicate;
use crate::scope::Scope;
use crate::window::{plan_step, step_fault};
use sp_plan::{Opening, Pred, Text};
use sp_query::{Query, QueryOpening, Span, Tree, Word};
use std::alloc::Global;

// The plan's step between windows, or its fault.
fn stepped(query: &Query, step: u64, unit: Word, span: Span) -> Result<Opening, CompileFault>
    ensures fine { IfOk result
        (λ _. checks.step_is_fine query.now.length.0 query.now.length.1 step unit ≡ true) }
    ensures opening { IfOk result (λ opening. opening ≡ stands.plan_step step unit) }
    ensures refused { IfErr result
        (λ fault.
        (if checks.step_is_fine query.now.length.0 query.now.length.1 step unit then None else Some
        (f.BadWindow span)) ≡ Some fault) }
{
    pass(step_fault(query, step, unit, span))?;
    Ok(plan_step(step, unit))
}

// The predicate of WHEN, in which no name is bound.
fn opening_pred(
    alloc: Global,
    query: &Query,
    names: &[PlacedName],
    texts: &[Text],
    tree: &Tree,
) -> Result<Pred, CompileFault>
    requires named { IsNamed query.now }
    requires names { names.now ≡ pattern_names query.now }
    ensures { PredAnswer (scope_in query.now None) texts.now tree.now result }
{
    let scope = Scope {
        columns: query.columns.as_slice(),
        names,
        here: None,
        at_hand: true,
        known: &[],
    };
    predicate(alloc, &scope, texts, tree)
}

/// Which events open a window of the plan, or the opening's first fault.
pub(crate) fn opening(
    alloc: Global,
    query: &Query,
    names: &[PlacedName],
    texts: &[Text],
) -> Result<Opening, CompileFault>
    requires named { IsNamed query.now }
    requires names { names.now ≡ pattern_names query.now }
    ensures opening { IfOk result (λ opening. OpeningPasses query.now texts.now opening) }
    ensures refused { IfErr result (λ fault. Misopens query.now fault) }
{
    match &query.opening {
        QueryOpening::Every(step, unit, span) => stepped(query, *step, *unit, *span),
        QueryOpening::When(tree) => {
            let pred = opening_pred(alloc, query, names, texts, tree)?;
            Ok(Opening::When(pred))
        }
    }
}
