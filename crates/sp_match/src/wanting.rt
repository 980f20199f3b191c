// How many events runs want at least.
ghost use Rattle.std.specs.Prelude.{◌≡◌, ◌≤◌, [], ◌++◌, length, map, take, OnOk};
ghost use Rattle.std.specs.List.{All, flat_map};
ghost use Rattle.sp_plan.specs.Compiled.{IsCompiled};
ghost use Rattle.sp_plan.specs.Moves as definitions;
ghost use Rattle.sp_match.specs.inside.Kept.{kept, all_kept, pairs};
ghost use Rattle.sp_match.specs.inside.Good.{Good};
ghost use Rattle.sp_match.specs.inside.Taking.{negated_count};
ghost use Rattle.sp_match.specs.inside.Wanted.{all_as_before, befores, wanted_all, wanted_by};

use crate::Memory;
use crate::run::Run;
use crate::taking::negated_count;
use sp_plan::Plan;
use sp_wants::Wants;

// How many events a run wants at least, where so many names are negated: one for each other name that it hasn't bound.
fn left_beside(plan: &Plan, negated: u32, run: &Run) -> u32
    requires compiled { IsCompiled plan.now }
    requires good { Good plan.now (kept run.now) }
    requires negated { negated ≡ negated_count plan.now.elements }
    ensures left { result ≡ definitions.left plan.now (pairs (kept run.now)) }
    ensures few { result ≤ 32 }
{
    plan.names.as_slice().len() as u32 - negated - run.bound_names
}

/// How many events a run wants at least.
pub(crate) fn left(plan: &Plan, run: &Run) -> u32
    requires compiled { IsCompiled plan.now }
    requires good { Good plan.now (kept run.now) }
    ensures left { result ≡ definitions.left plan.now (pairs (kept run.now)) }
    ensures few { result ≤ 32 }
{
    left_beside(plan, negated_count(plan), run)
}

/// Adds what each run wants, before and after an event that changes nothing.
pub(crate) fn want_as_before(plan: &Plan, runs: &[Run], wanted: &mut Wants) -> Result<(), Memory>
    requires compiled { IsCompiled plan.now }
    requires good { All (Good plan.now) (all_kept runs.now) }
    ensures { OnOk result
        (wanted.new ≡ wanted.old ++ all_as_before plan.now (all_kept runs.now)) }
{
    let negated = negated_count(plan);
    let mut same = 0;
    let mut times = 0;
    for run in runs {
        let left = left_beside(plan, negated, run);
        if left != same {
            wanted.push_times(same, same, times)?;
            same = left;
            times = 0;
        }
        times += 1;
    }
    wanted.push_times(same, same, times)
}

// Adds what each of these runs wants now, all of which wanted so many events before; of abandoned ones nothing is said.
fn want_stretch(
    plan: &Plan,
    negated: u32,
    before: u32,
    runs: &[Run],
    wanted: &mut Wants,
) -> Result<(), Memory>
    requires compiled { IsCompiled plan.now }
    requires good { All (Good plan.now) (all_kept runs.now) }
    requires negated { negated ≡ negated_count plan.now.elements }
    ensures { OnOk result (wanted.new
        ≡ wanted.old ++ flat_map (λ k. wanted_by plan.now (before, k)) (all_kept runs.now)) }
{
    let mut after = before;
    let mut times = 0;
    for run in runs {
        if run.leaves() {
            continue;
        }
        let left = left_beside(plan, negated, run);
        if left != after {
            wanted.push_times(before, after, times)?;
            after = left;
            times = 0;
        }
        times += 1;
    }
    wanted.push_times(before, after, times)
}

/// What each of the first runs wanted, as `lefts` has it, and wants now; of abandoned ones nothing is said.
pub(crate) fn want_after(
    plan: &Plan,
    lefts: &Wants,
    runs: &[Run],
    wanted: &mut Wants,
) -> Result<(), Memory>
    requires compiled { IsCompiled plan.now }
    requires good { All (Good plan.now) (all_kept runs.now) }
    requires there { length lefts.now ≤ length runs.now }
    requires none { wanted.old ≡ [] }
    ensures { OnOk result (wanted.new ≡ wanted_all plan.now (befores lefts.now)
        (take (length lefts.now) (all_kept runs.now))) }
{
    let negated = negated_count(plan);
    let mut at = 0;
    for stretch in lefts.stretches() {
        let end = at + stretch.times;
        want_stretch(plan, negated, stretch.before, &runs[at..end], wanted)?;
        at = end;
    }
    Ok(())
}
