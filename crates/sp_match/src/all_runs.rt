// All open runs at once: copied, and compared.
ghost use Rattle.std.specs.Prelude.{◌≡◌, ◌≤◌, ◌↔◌, length, map, IsTrue, IfOk, OnOk};
ghost use Rattle.std.specs.List.{All};
ghost use Rattle.sp_plan.specs.declared.plan.Plan.{Plan};
ghost use Rattle.sp_match.specs.inside.Kept.{kept, all_kept, started};
ghost use Rattle.sp_match.specs.inside.Good.{Good};

use crate::Memory;
use crate::run::Run;
use crate::stock::Stock;
use std::alloc::Global;

/// The same runs once more.
pub(crate) fn copies(alloc: Global, runs: &[Run]) -> Result<Vec<Run>, Memory>
    ensures { IfOk result (λ copies. all_kept copies.items ≡ all_kept runs.now) }
{
    let mut copies = Vec::with_capacity(alloc, runs.len())?;
    for run in runs {
        copies.push(run.copy(alloc)?)?;
    }
    Ok(copies)
}

// Those of the runs that stand at this place or behind it end, and leave their rooms to later ones where there is room
// for them. Takes no memory.
fn end_behind(count: usize, runs: &mut Vec<Run>, stock: &mut Stock)
    ensures { length runs.new.items ≤ count }
{
    while runs.len() > count {
        if let Some(run) = runs.pop() {
            stock.keep(run);
        }
    }
}

// There are so many runs, whichever they are, where there weren't more: those that are missing have bound no event, and
// take the rooms of those that ended.
fn fill_up(
    alloc: Global,
    count: usize,
    runs: &mut Vec<Run>,
    stock: &mut Stock,
) -> Result<(), Memory>
    requires { length runs.old.items ≤ count }
    ensures { OnOk result (length runs.new.items ≡ count) }
{
    while runs.len() < count {
        runs.push(stock.run(alloc, 0, count))?;
    }
    Ok(())
}

// Each run is the same as the other one at its place.
fn copy_each(alloc: Global, others: &[Run], runs: &mut [Run]) -> Result<(), Memory>
    requires { length runs.old ≡ length others.now }
    ensures { OnOk result (all_kept runs.new ≡ all_kept others.now) }
{
    for at in 0..others.len() {
        runs[at].copy_from(alloc, &others[at])?;
    }
    Ok(())
}

/// The same runs as others, in the rooms of these and of those that ended. What isn't used of these rooms is left to later
/// runs where there is room for it.
pub(crate) fn copy_all(
    alloc: Global,
    others: &[Run],
    runs: &mut Vec<Run>,
    stock: &mut Stock,
) -> Result<(), Memory>
    ensures { OnOk result (all_kept runs.new.items ≡ all_kept others.now) }
{
    end_behind(others.len(), runs, stock);
    fill_up(alloc, others.len(), runs, stock)?;
    copy_each(alloc, others, runs)
}

// Whether two pairs of a name and a number are equal.
fn same_pair(one: (u8, u32), other: (u8, u32)) -> bool
    ensures { IsTrue result ↔ (one ≡ other) }
{
    one.0 == other.0 && one.1 == other.1
}

// Whether two lists of names and numbers are equal.
fn same_bound(ones: &[(u8, u32)], others: &[(u8, u32)]) -> bool
    ensures { IsTrue result ↔ (ones.now ≡ others.now) }
{
    if ones.len() != others.len() {
        return false;
    }
    for at in 0..ones.len() {
        if !same_pair(ones[at], others[at]) {
            return false;
        }
    }
    true
}

// Whether two runs have the same number and pairs.
fn same_run(one: &Run, other: &Run) -> bool
    requires one { (q : Plan) × Good q (kept one.now) }
    requires other { (q : Plan) × Good q (kept other.now) }
    ensures { IsTrue result ↔ (started (kept one.now) ≡ started (kept other.now)) }
{
    if one.number != other.number {
        return false;
    }
    if !same_bound(&one.bound, &other.bound) {
        return false;
    }
    one.events.same(&other.events)
}

/// Whether both are the same runs with the same pairs.
pub(crate) fn same_runs(ones: &[Run], others: &[Run]) -> bool
    requires one { (q : Plan) × All (Good q) (all_kept ones.now) }
    requires other { (q : Plan) × All (Good q) (all_kept others.now) }
    ensures { IsTrue result
        ↔ (map started (all_kept ones.now) ≡ map started (all_kept others.now)) }
{
    if ones.len() != others.len() {
        return false;
    }
    for at in 0..ones.len() {
        if !same_run(&ones[at], &others[at]) {
            return false;
        }
    }
    true
}
