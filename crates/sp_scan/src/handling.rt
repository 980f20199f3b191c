// The handling of an event.
ghost use Rattle.std.specs.Prelude.{◌≡◌, ℕ, ◌+◌, [], length, is_none, IfOk, OnOk};
ghost use Rattle.std.specs.List.{All, list_all};
ghost use Rattle.sp_plan.specs.Runs as definitions;
ghost use Rattle.sp_plan.specs.Runs.{Handling, State};
ghost use Rattle.sp_scan.specs.inside.Ahead.{IsReady};
ghost use Rattle.sp_scan.specs.inside.Offer.{IsOffer, IsShared, numbered};
ghost use Rattle.sp_scan.specs.inside.Shown.{ShowsAfter, ShowsRuns, ShowsTurns, after_start, after_turns, all_pairs, pairs_of};
ghost use Rattle.sp_scan.specs.inside.Starting.{are_free, has_room};

use crate::asking::{begins, takes};
use crate::offer::{Offer, share};
use crate::run::Run;
use crate::runs::Runs;
use crate::turns::Turns;
use sp_base::Numbers;
use sp_plan::{Memory, Select, SharedEvent};

// So many runs are open at most where one more starts.
const MOST: usize = 64;

// Whether none of the runs takes the event.
fn none_takes(offer: &Offer, runs: &[Run]) -> bool
    requires offer { IsOffer offer.now }
    requires ready { All (IsReady offer.now.plan.now offer.now.number) runs.now }
    ensures { result ≡ list_all
        (λ run. is_none (definitions.takes offer.now.plan.now run offer.now.event.now))
        (all_pairs runs.now) }
{
    for run in runs {
        if takes(offer, run).is_some() {
            return false;
        }
    }
    true
}

// Whether the runs that are open when the event comes let it start one.
fn are_free(offer: &Offer, runs: &[Run]) -> bool
    requires offer { IsOffer offer.now }
    requires ready { All (IsReady offer.now.plan.now offer.now.number) runs.now }
    ensures { result ≡ are_free offer.now.plan.now.select offer.now.plan.now
        (all_pairs runs.now) offer.now.event.now }
{
    match offer.plan.select {
        Select::First => runs.is_empty(),
        Select::Last => none_takes(offer, runs),
        Select::Each => true,
    }
}

// Whether its handling, so far as it has come, lets it start one.
fn has_room(offer: &Offer, turns: &Turns) -> bool
    ensures { result ≡ has_room offer.now.plan.now.select turns.now.taken.list
        (length turns.now.runs.items) offer.now.number }
{
    match offer.plan.select {
        Select::First | Select::Last => true,
        Select::Each => !turns.taken.has(offer.number) && turns.runs.len() < MOST,
    }
}

// The event starts a run, where it may start one and begins one.
fn start(
    offer: &Offer,
    shared: &mut Option<SharedEvent>,
    free: bool,
    turns: &mut Turns,
) -> Result<(), Memory>
    requires offer { IsOffer offer.now }
    requires shared { IsShared offer.now shared.old }
    ensures { OnOk result ((h : Handling) (s : State)
        → free ≡ are_free offer.now.plan.now.select offer.now.plan.now
        (pairs_of s.open_runs) offer.now.event.now
        → ShowsTurns offer.now.plan.now (offer.now.number + 1) h turns.old.runs.items
        turns.old.found.items turns.old.taken.list
        → ShowsAfter offer.now.plan.now (offer.now.number + 1)
        (after_start offer.now.plan.now (numbered offer.now) s h) turns.new) }
{
    if !free || !has_room(offer, turns) {
        return Ok(());
    }
    match begins(offer) {
        Some(name) => {
            let run = Run::begun(offer, name, share(offer, shared)?)?;
            let at = turns.runs.len();
            turns.runs.push(run)?;
            turns.settle(offer, at)?;
            Ok(())
        }
        None => Ok(()),
    }
}

// The open runs are offered the event, the oldest first.
fn offer_to_all(
    offer: &Offer,
    shared: &mut Option<SharedEvent>,
    runs: Runs,
) -> Result<Turns, Memory>
    requires offer { IsOffer offer.now }
    requires shared { IsShared offer.now shared.old }
    requires ready { All (IsReady offer.now.plan.now offer.now.number) runs.open_runs.items }
    ensures shows { IfOk result (λ turns. (s : State)
        → ShowsRuns offer.now.plan.now offer.now.number s runs
        → ShowsTurns offer.now.plan.now (offer.now.number + 1)
        (after_turns offer.now.plan.now (numbered offer.now) s)
        turns.runs.items turns.found.items turns.taken.list) }
    ensures shared { IsShared offer.now shared.new }
{
    let mut turns = Turns {
        runs: runs.open_runs,
        found: runs.found,
        taken: Numbers::new(offer.alloc),
    };
    let mut at = 0;
    while at < turns.runs.len() {
        at = turns.take_turn(offer, shared, at)?;
    }
    Ok(turns)
}

/// One event more: the open runs are offered it, the oldest first, and then it may start one.
pub(crate) fn handle(offer: &Offer, runs: Runs) -> Result<Runs, Memory>
    requires offer { IsOffer offer.now }
    requires ready { All (IsReady offer.now.plan.now offer.now.number) runs.open_runs.items }
    ensures { IfOk result (λ after. (s : State)
        → ShowsRuns offer.now.plan.now offer.now.number s runs
        → ShowsRuns offer.now.plan.now (offer.now.number + 1)
        (definitions.handle offer.now.plan.now s (numbered offer.now)) after) }
{
    let free = are_free(offer, &runs.open_runs);
    let mut shared = None;
    let mut turns = offer_to_all(offer, &mut shared, runs)?;
    start(offer, &mut shared, free, &mut turns)?;
    Ok(Runs {
        open_runs: turns.runs,
        found: turns.found,
    })
}
