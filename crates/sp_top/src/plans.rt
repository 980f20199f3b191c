// The plans of a run by several trees.
ghost use Rattle.std.specs.Prelude.{◌≡◌, ◌≢◌, ◌≤◌, ℕ, List, length, vec_len, IfOk, IfErr, Err};
ghost use Rattle.std.specs.Arc.{arc_value};
ghost use Rattle.std.specs.List.{All};
ghost use Rattle.sp_base.specs.Limits.{query_limit};
ghost use Rattle.sp_forest.specs.Alike.{RunsAs};
ghost use Rattle.sp_load.specs.Loads.{IsUnread};
ghost use Rattle.sp_load.specs.Places.{place_of, text_of};
ghost use Rattle.sp_load.specs.Queries.{IsPlanAt, IsPlanFor, RefusesPlace, RefusesText};

use crate::law;
use sp_commands::shared;
use sp_io::Files;
use sp_load::{Place, QueryText, Refusal, plan_of_text, text_at};
use sp_plan::Plan;
use std::alloc::Global;
use std::sync::Arc;

/// The plan of a query, and one for each tree, so that no two trees count the owners of one.
#[derive(Drop)]
pub(crate) struct Plans {
    pub(crate) plan: Arc<Plan>,
    pub(crate) own: Vec<Arc<Plan>>,
}

// A plan of the query's text, to be held by several owners.
fn shared_plan(alloc: Global, text: &QueryText) -> Result<Arc<Plan>, Refusal>
    requires { length (text_of text.now) ≤ query_limit }
    ensures plan { IfOk result (λ plan. IsPlanFor (text_of text.now) (arc_value plan)) }
    ensures refused { IfErr result (RefusesText (text_of text.now)) }
{
    match plan_of_text(alloc, text) {
        Ok(plan) => shared(alloc, plan).or(Err(Refusal::Memory)),
        Err(refusal) => Err(refusal),
    }
}

// So many plans of the query's text.
fn own_plans(alloc: Global, text: &QueryText, trees: usize) -> Result<Vec<Arc<Plan>>, Refusal>
    requires { length (text_of text.now) ≤ query_limit }
    ensures plans { IfOk result
        (λ own. All (λ plan. IsPlanFor (text_of text.now) (arc_value plan)) own.items) }
    ensures many { IfOk result (λ own. vec_len own ≡ trees) }
    ensures refused { IfErr result (RefusesText (text_of text.now)) }
{
    let mut own = Vec::new(alloc);
    for _ in 0..trees {
        let plan = shared_plan(alloc, text)?;
        own.push(plan).or(Err(Refusal::Memory))?;
    }
    Ok(own)
}

// The plans of the query's text, for so many trees.
fn plans_of(alloc: Global, text: &QueryText, trees: usize) -> Result<Plans, Refusal>
    requires { length (text_of text.now) ≤ query_limit }
    ensures plan { IfOk result (λ plans. IsPlanFor (text_of text.now) (arc_value plans.plan)) }
    ensures alike { IfOk result (λ plans.
        All (λ own. RunsAs (arc_value plans.plan) (arc_value own)) plans.own.items) }
    ensures many { IfOk result (λ plans. vec_len plans.own ≡ trees) }
    ensures refused { IfErr result (RefusesText (text_of text.now)) }
{
    // the plans of one text stand for one query, and such plans match alike
    law::one_reading();
    law::plans_match_alike();
    let plan = shared_plan(alloc, text)?;
    let own = own_plans(alloc, text, trees)?;
    Ok(Plans { plan, own })
}

/// The plans of the query that stands there, for so many trees, or why there are none.
pub(crate) fn plans_at<F: Files>(
    alloc: Global,
    place: Place,
    trees: usize,
    files: &mut F,
) -> Result<Plans, Refusal>
    ensures plan { IfOk result (λ plans.
        IsPlanAt (F.held files.old) (place_of place.entry) (arc_value plans.plan)) }
    ensures alike { IfOk result (λ plans.
        All (λ own. RunsAs (arc_value plans.plan) (arc_value own)) plans.own.items) }
    ensures many { IfOk result (λ plans. vec_len plans.own ≡ trees) }
    ensures refused { IfErr result (RefusesPlace (F.held files.old) (place_of place.entry)) }
    ensures held { F.held files.new ≡ F.held files.old }
    ensures fault { result ≡ Err Refusal.Read
        → IsUnread (place_of place.entry) (F.faults files.old) (F.faults files.new) }
    ensures no_fault { result ≢ Err Refusal.Read → (name : List ℕ)
        → F.faults files.new name ≡ F.faults files.old name }
{
    match text_at(alloc, place, files) {
        Ok(text) => plans_of(alloc, &text, trees),
        Err(refusal) => Err(refusal),
    }
}
