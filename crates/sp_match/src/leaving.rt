// Runs that are abandoned. They are only marked, since memory may be refused later in the handling of
// the event.
ghost use Rattle.std.specs.Prelude.{◌≡◌, ℕ, ◌&&◌, false, [], ◌∷◌, ◌++◌, map, OnOk, OnErr};
ghost use Rattle.std.specs.List.{All, flat_map};
ghost use Rattle.sp_plan.specs.declared.plan.Plan.{Plan};
ghost use Rattle.sp_match.specs.inside.Kept.{kept, all_kept};
ghost use Rattle.sp_match.specs.inside.Good.{Good, Undoes};
ghost use Rattle.sp_match.specs.inside.Effects.{Adds, run_after_use, leaving_told, use_told};
ghost use Rattle.sp_match.specs.inside.Effects as effects;
ghost use Rattle.sp_match.specs.declared.run.Fate.TheVariants.{Leaves};

use crate::Memory;
use crate::moves::Move;
use crate::run::{Fate, Run};
use sp_base::Numbers;

/// A run is abandoned.
pub(crate) fn leave(run: &mut Run, list: &mut Vec<Move>) -> Result<(), Memory>
    ensures run { OnOk result (kept run.new ≡ record (kept run.old) { fate = Leaves }) }
    ensures told { OnOk result
        (Adds list.old.items list.new.items (leaving_told (kept run.old) ∷ [])) }
    ensures err { OnErr result (kept run.new ≡ kept run.old) }
{
    list.push(Move::Abandoned { run: run.number })?;
    run.fate = Fate::Leaves;
    Ok(())
}

// Whether a run is open and holds one of these numbers.
fn loses(run: &Run, numbers: &Numbers) -> bool
    requires { (q : Plan) × Good q (kept run.now) }
    ensures { result ≡ effects.loses numbers.now.list (kept run.now) }
{
    run.stays() && run.holds_one(numbers)
}

// A run is abandoned where it is open and holds one of these numbers.
fn leave_with(run: &mut Run, used: &Numbers, list: &mut Vec<Move>) -> Result<(), Memory>
    requires { (q : Plan) × Good q (kept run.old) }
    ensures run { OnOk result (kept run.new ≡ run_after_use used.now.list (kept run.old)) }
    ensures told { OnOk result
        (Adds list.old.items list.new.items (use_told used.now.list (kept run.old))) }
    ensures err { OnErr result (kept run.new ≡ kept run.old) }
{
    if loses(run, used) {
        leave(run, list)
    } else {
        Ok(())
    }
}

/// Each open run that holds one of these numbers is abandoned, by run number.
pub(crate) fn abandon(runs: &mut [Run], used: &Numbers, list: &mut Vec<Move>) -> Result<(), Memory>
    requires { (q : Plan) × All (Good q) (all_kept runs.old) }
    ensures runs { OnOk result
        (all_kept runs.new ≡ map (run_after_use used.now.list) (all_kept runs.old)) }
    ensures told { OnOk result (Adds list.old.items list.new.items
        (flat_map (use_told used.now.list) (all_kept runs.old))) }
    ensures undoes { (q : Plan) (n : ℕ) → All (Good q) (all_kept runs.old)
        → Undoes q n (all_kept runs.old) (all_kept runs.new) }
{
    for i in 0..runs.len() {
        leave_with(&mut runs[i], used, list)?;
    }
    Ok(())
}

/// Tells that all runs are abandoned.
pub(crate) fn abandon_all(runs: &[Run], list: &mut Vec<Move>) -> Result<(), Memory>
    ensures { OnOk result
        (Adds list.old.items list.new.items (map leaving_told (all_kept runs.now))) }
{
    for run in runs {
        list.push(Move::Abandoned { run: run.number })?;
    }
    Ok(())
}
