// An event may start a run, when all open runs were offered it.
ghost use Rattle.std.specs.Prelude.{◌≡◌, ℕ, ◌+◌, ◌<◌, ◌≤◌, true, List, [], ◌∷◌, ◌++◌, length, map, take, nat_lt, OnOk};
ghost use Rattle.std.specs.List.{All};
ghost use Rattle.sp_base.specs.Numbers.{is_among};
ghost use Rattle.sp_plan.specs.Runs as definitions;
ghost use Rattle.sp_plan.specs.Runs.{State};
ghost use Rattle.sp_plan.specs.Moves.{Told, OpenedTold};
ghost use Rattle.sp_plan.specs.Windows.{Numbered};
ghost use Rattle.sp_match.specs.inside.Kept.{Kept, kept, all_kept, empty, started};
ghost use Rattle.sp_match.specs.inside.Good.{Good, Undoes};
ghost use Rattle.sp_match.specs.inside.Offer.{IsOffer, IsShared, numbered};
ghost use Rattle.sp_match.specs.inside.Effects.{Adds, open_runs, runs_after_binding, runs_binding_told};
ghost use Rattle.sp_match.specs.inside.Going.{Going, lets_start, starting};

use crate::Memory;
use crate::binding::bind;
use crate::moves::Move;
use crate::offer::{Offer, begins};
use crate::run::Run;
use crate::stock::Stock;
use crate::turns::Reception;
use sp_plan::{Plan, Select};

// How many runs stay open.
fn open_count(runs: &[Run]) -> usize
    ensures { result ≡ length (open_runs (all_kept runs.now)) }
{
    let mut count = 0;
    for run in runs {
        if run.stays() {
            count += 1;
        }
    }
    count
}

// Whether fewer than 64 runs stay open. Where so few are there they aren't counted.
fn has_room(runs: &[Run]) -> bool
    ensures { result ≡ nat_lt (length (open_runs (all_kept runs.now))) 64 }
{
    runs.len() < 64 || open_count(runs) < 64
}

// Whether the policy lets the event start a run, when all open runs were offered it.
fn may_start(plan: &Plan, runs: &[Run], so_far: Reception) -> bool
    ensures { (x : Numbered) (s : State) (old : List Kept) (ts : List Told)
        → s.open_runs ≡ map started old → length old ≡ length runs.now
        → Going plan.now x s old (length old) (all_kept runs.now) ts so_far
        → result ≡ lets_start plan.now x s }
{
    match plan.select {
        Select::First => runs.is_empty(),
        Select::Last => matches!(so_far, Reception::Passed),
        Select::Each => !matches!(so_far, Reception::Used) && has_room(runs),
    }
}

/// The name under which the event starts a run, where it starts one.
pub(crate) fn start_name(offer: &Offer, runs: &[Run], so_far: Reception) -> Option<u8>
    requires { IsOffer offer.now }
    ensures { (s : State) (old : List Kept) (ts : List Told)
        → s.open_runs ≡ map started old → length old ≡ length runs.now
        → Going offer.now.plan.now (numbered offer.now) s old (length old) (all_kept runs.now) ts
        so_far
        → result ≡ starting offer.now.plan.now (numbered offer.now) s }
{
    let may = may_start(offer.plan, runs, so_far);
    if may { begins(offer) } else { None }
}

/// A new run starts with the event under this name. Where it is complete it leaves, and with it each
/// open run that holds a number which it used.
pub(crate) fn open(
    offer: &Offer,
    shared: &mut Stock,
    runs: &mut Vec<Run>,
    count: u32,
    name: u8,
    list: &mut Vec<Move>,
) -> Result<(), Memory>
    requires offer { IsOffer offer.now }
    requires shared { IsShared offer.now shared.old }
    requires good { All (Good offer.now.plan.now) (all_kept runs.old.items) }
    requires named { name < length offer.now.plan.now.names }
    requires binds { is_among (definitions.bound_names offer.now.plan.now) name ≡ true }
    requires below { count < offer.now.number }
    ensures runs { OnOk result (all_kept runs.new.items
        ≡ runs_after_binding offer.now.plan.now name (numbered offer.now) (length runs.old.items)
        (all_kept runs.old.items ++ empty (count + 1) ∷ [])) }
    ensures told { OnOk result (Adds list.old.items list.new.items (OpenedTold (count + 1)
        ∷ runs_binding_told offer.now.plan.now name (numbered offer.now) (length runs.old.items)
        (all_kept runs.old.items ++ empty (count + 1) ∷ []))) }
    ensures good { OnOk result (All (Good offer.now.plan.now) (all_kept runs.new.items)) }
    ensures undoes { Undoes offer.now.plan.now offer.now.number (all_kept runs.old.items)
        (take (length runs.old.items) (all_kept runs.new.items)) }
{
    let at = runs.len();
    runs.push(shared.run(offer.alloc, count + 1, at))?;
    list.push(Move::Opened { run: count + 1 })?;
    bind(offer, shared, runs, at, name, list)?;
    Ok(())
}
