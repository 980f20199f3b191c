// The handling of an event: all open runs are offered it, and then it may start one.
ghost use Rattle.std.specs.Prelude.{◌≡◌, ◌<◌, [], false, length, map, take, IfOk, IsTrue, IsFalse, OnOk};
ghost use Rattle.sp_plan.specs.Runs.{State};
ghost use Rattle.sp_plan.specs.Moves as definitions;
ghost use Rattle.sp_match.specs.public.Seen.{all_seen};
ghost use Rattle.sp_match.specs.inside.Kept.{all_kept, pairs, started};
ghost use Rattle.sp_match.specs.inside.Good.{Undoes};
ghost use Rattle.sp_match.specs.inside.Offer.{AllTold, IsOffer, IsShared, numbered};
ghost use Rattle.sp_match.specs.inside.Going.{IsReady};
ghost use Rattle.sp_match.specs.inside.Handling.{IsHandled};
ghost use Rattle.sp_match.specs.inside.Wanted.{AreLeft};

use crate::Memory;
use crate::lefts::Lefts;
use crate::moves::{Move, Moves};
use crate::offer::Offer;
use crate::run::Run;
use crate::starting::{open, start_name};
use crate::stock::Stock;
use crate::turns::offer_to_all;

// All that an event does to the runs and tells, but runs that leave are only marked. Answers whether a
// run started. Where nothing is told, nothing was done. After want of memory what was done to the runs
// can be undone.
fn handle(
    offer: &Offer,
    shared: &mut Stock,
    runs: &mut Vec<Run>,
    count: u32,
    list: &mut Vec<Move>,
) -> Result<bool, Memory>
    requires offer { IsOffer offer.now }
    requires shared { IsShared offer.now shared.old }
    requires ready { IsReady offer.now.plan.now offer.now.number count (all_kept runs.old.items) }
    requires below { count < offer.now.number }
    requires none { list.old.items ≡ [] }
    requires told { AllTold offer.now (map pairs (all_kept runs.old.items)) }
    ensures handled { IfOk result (λ began. IsHandled offer.now.plan.now (numbered offer.now) count
        (all_kept runs.old.items) began (all_kept runs.new.items) (all_seen list.new.items)) }
    ensures quiet { OnOk result
        (all_seen list.new.items ≡ [] → all_kept runs.new.items ≡ all_kept runs.old.items) }
    ensures undoes { Undoes offer.now.plan.now offer.now.number (all_kept runs.old.items)
        (take (length runs.old.items) (all_kept runs.new.items)) }
{
    let so_far = offer_to_all(offer, shared, runs, list)?;
    match start_name(offer, runs, so_far) {
        Some(name) => {
            open(offer, shared, runs, count, name, list)?;
            Ok(true)
        }
        None => Ok(false),
    }
}

/// All that an event does and tells, as `handle` has it, and where it is WANTED, what the runs want that were
/// open when it came. What was told before is forgotten. What is kept of what the runs want is so of them.
pub(crate) fn handle_all<const WANTED: bool>(
    offer: &Offer,
    shared: &mut Stock,
    runs: &mut Vec<Run>,
    lefts: &mut Lefts,
    count: u32,
    moves: &mut Moves,
) -> Result<bool, Memory>
    requires offer { IsOffer offer.now }
    requires ready { IsReady offer.now.plan.now offer.now.number count (all_kept runs.old.items) }
    requires below { count < offer.now.number }
    requires told { AllTold offer.now (map pairs (all_kept runs.old.items)) }
    requires left { AreLeft offer.now.plan.now (all_kept runs.old.items) lefts.old }
    ensures handled { IfOk result (λ began. IsHandled offer.now.plan.now (numbered offer.now) count
        (all_kept runs.old.items) began (all_kept runs.new.items) (all_seen moves.new.list.items)) }
    ensures quiet { OnOk result (all_seen moves.new.list.items ≡ []
        → all_kept runs.new.items ≡ all_kept runs.old.items) }
    ensures wanted { IsTrue WANTED → OnOk result ((s : State)
        → s.open_runs ≡ map started (all_kept runs.old.items) → s.started ≡ count
        → moves.new.wanted ≡ definitions.still_wanted offer.now.plan.now s
        (definitions.moves offer.now.plan.now s (numbered offer.now))) }
    ensures left { OnOk result
        (AreLeft offer.now.plan.now (all_kept runs.new.items) lefts.new) }
    ensures stale { IsFalse WANTED → OnOk result (lefts.new.is_fresh ≡ false) }
    ensures undoes { Undoes offer.now.plan.now offer.now.number (all_kept runs.old.items)
        (take (length runs.old.items) (all_kept runs.new.items)) }
{
    moves.clear();
    shared.begin();
    if !WANTED {
        lefts.forget();
        return handle(offer, shared, runs, count, &mut moves.list);
    }
    let open = runs.len();
    lefts.refresh(offer.plan, runs)?;
    let began = handle(offer, shared, runs, count, &mut moves.list)?;
    let quiet = moves.list.is_empty();
    lefts.tell(offer.plan, runs, open, quiet, &mut moves.wanted)?;
    Ok(began)
}
