// Runs that complete. They are only marked, as runs are that are abandoned.
ghost use Rattle.std.specs.Prelude.{◌≡◌, ◌≤◌, [], ◌∷◌, ◌++◌, length, map, IfOk, OnOk, OnErr};
ghost use Rattle.std.specs.List.{list_any, range_with_len};
ghost use Rattle.sp_plan.specs.Compiled.{IsCompiled};
ghost use Rattle.sp_plan.specs.Runs.{bindings, numbers_under};
ghost use Rattle.sp_plan.specs.Runs as definitions;
ghost use Rattle.sp_match.specs.public.Seen.{seen_name};
ghost use Rattle.sp_match.specs.inside.Kept.{kept, pairs};
ghost use Rattle.sp_match.specs.inside.Good.{Good};
ghost use Rattle.sp_match.specs.inside.Taking.{is_never};
ghost use Rattle.sp_match.specs.inside.Effects.{Adds, completion_told, run_if_complete, told_if_complete};
ghost use Rattle.sp_match.specs.declared.run.Fate.TheVariants.{Completes};

use crate::Memory;
use crate::moves::Move;
use crate::run::{Fate, Run};
use crate::taking::{is_complete, negated_count};
use sp_base::Numbers;
use sp_plan::{Element, Listed, Plan};
use std::alloc::Global;

// Each name with no numbers.
fn no_numbers(alloc: Global, count: usize) -> Result<Vec<(u8, Numbers)>, Memory>
    requires { count ≤ 32 }
    ensures { IfOk result (λ lists. map seen_name lists.items
        ≡ map (λ name. (name, [])) (range_with_len 0 count)) }
{
    let mut lists = Vec::with_capacity(alloc, count)?;
    for name in 0..count {
        lists.push((name as u8, Numbers::new(alloc)))?;
    }
    Ok(lists)
}

// Each name of the plan with the numbers of the events that the run binds to it, in one pass over its
// pairs.
fn all_numbers(alloc: Global, plan: &Plan, run: &Run) -> Result<Vec<(u8, Numbers)>, Memory>
    requires compiled { IsCompiled plan.now }
    requires good { Good plan.now (kept run.now) }
    ensures { IfOk result (λ lists. map seen_name lists.items
        ≡ map (λ name. (name, numbers_under (pairs (kept run.now)) name))
        (range_with_len 0 (length plan.now.names))) }
{
    let mut lists = no_numbers(alloc, plan.names.as_slice().len())?;
    for (name, number) in &run.bound {
        let list = &mut lists[*name as usize];
        list.1.insert(*number)?;
    }
    Ok(lists)
}

// Whether an element is the name, negated.
fn is_never(name: u8, element: Element) -> bool
    ensures { result ≡ is_never name element }
{
    match element {
        Element::Never(own) => own == name,
        _ => false,
    }
}

// Whether the name is negated.
fn is_negated(plan: &Plan, name: u8) -> bool
    ensures { result ≡ list_any (is_never name) plan.now.elements }
{
    plan.elements
        .as_slice()
        .iter()
        .any(|element| is_never(name, *element))
}

// Each name of the plan that isn't negated with the numbers of the events that the run binds to it.
fn bound_numbers(alloc: Global, plan: &Plan, run: &Run) -> Result<Vec<(u8, Numbers)>, Memory>
    requires compiled { IsCompiled plan.now }
    requires good { Good plan.now (kept run.now) }
    ensures { IfOk result (λ lists. map seen_name lists.items
        ≡ bindings plan.now (pairs (kept run.now))) }
{
    let mut lists = all_numbers(alloc, plan, run)?;
    if negated_count(plan) == 0 {
        return Ok(lists);
    }
    lists.retain(|list| !is_negated(plan, list.0));
    Ok(lists)
}

// A run completes.
fn complete(alloc: Global, plan: &Plan, run: &mut Run, list: &mut Vec<Move>) -> Result<(), Memory>
    requires compiled { IsCompiled plan.now }
    requires good { Good plan.now (kept run.old) }
    ensures run { OnOk result (kept run.new ≡ record (kept run.old) { fate = Completes }) }
    ensures told { OnOk result
        (Adds list.old.items list.new.items (completion_told plan.now (kept run.old) ∷ [])) }
    ensures err { OnErr result (kept run.new ≡ kept run.old) }
{
    let bound = bound_numbers(alloc, plan, run)?;
    let used = run.used.copy(alloc)?;
    list.push(Move::Completed {
        run: run.number,
        bound: Listed::of(bound),
        used,
    })?;
    run.fate = Fate::Completes;
    Ok(())
}

/// A run completes where no element is left. Answers whether it does.
pub(crate) fn finish(
    alloc: Global,
    plan: &Plan,
    run: &mut Run,
    list: &mut Vec<Move>,
) -> Result<bool, Memory>
    requires compiled { IsCompiled plan.now }
    requires good { Good plan.now (kept run.old) }
    ensures run { OnOk result (kept run.new ≡ run_if_complete plan.now (kept run.old)) }
    ensures told { OnOk result
        (Adds list.old.items list.new.items (told_if_complete plan.now (kept run.old))) }
    ensures complete { IfOk result (λ complete. complete
        ≡ definitions.is_complete plan.now (pairs (kept run.old))) }
    ensures err { OnErr result (kept run.new ≡ kept run.old) }
{
    let is_whole = is_complete(plan, run);
    if is_whole {
        complete(alloc, plan, run, list)?;
    }
    Ok(is_whole)
}
