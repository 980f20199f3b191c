// Run by run, the open runs are offered an event.
ghost use Rattle.std.specs.Prelude.{◌≡◌, ◌<◌, [], ◌++◌, None, false, length, map, IfOk, IsTrue, OnOk};
ghost use Rattle.std.specs.List.{All};
ghost use Rattle.sp_match.specs.public.Seen.{all_seen};
ghost use Rattle.sp_plan.specs.Runs as definitions;
ghost use Rattle.sp_match.specs.inside.Kept.{kept, all_kept, pairs};
ghost use Rattle.sp_match.specs.inside.Good.{Good, NumbersBelow, Undoes};
ghost use Rattle.sp_match.specs.inside.Offer.{AllTold, IsOffer, IsShared, IsToldAt, numbered};
ghost use Rattle.sp_match.specs.inside.Effects.{Adds, run_at, runs_after_offer, offer_told, reception_after_offer};
ghost use Rattle.sp_match.specs.inside.Turn.{IsTurn, departs_at, taken_at};
ghost use Rattle.sp_match.specs.inside.Going.{AllHadTurns, IsSet};

use crate::Memory;
use crate::binding::bind;
use crate::leaving::leave;
use crate::moves::Move;
use crate::offer::{Offer, leaves};
use crate::run::Run;
use crate::stock::Stock;
use crate::taking::{is_guarded, takes};
use sp_plan::{Select, has_bit};

/// What an event has met with among the runs that were open when it came.
#[derive(Clone, Copy, Drop)]
pub(crate) enum Reception {
    /// No run took it.
    Passed,
    /// A run took it.
    Taken,
    /// A run that took it is complete, and used it: it is offered to no other run.
    Used,
}

// Whether the run at this place leaves where it doesn't take the event.
fn departs(offer: &Offer, run: &Run, at: usize) -> bool
    requires offer { IsOffer offer.now }
    requires good { Good offer.now.plan.now (kept run.now) }
    requires told { IsToldAt offer.now at (pairs (kept run.now)) }
    ensures { result
        ≡ definitions.departs offer.now.plan.now (pairs (kept run.now)) offer.now.event.now }
{
    leaves(offer) || is_guarded(offer, run, at)
}

// The run at this place, which is open, doesn't take the event: it leaves where the policy says so, or where it is guarded.
fn pass(offer: &Offer, runs: &mut [Run], at: usize, list: &mut Vec<Move>) -> Result<(), Memory>
    requires offer { IsOffer offer.now }
    requires good { All (Good offer.now.plan.now) (all_kept runs.old) }
    requires within { at < length runs.old }
    requires told { IsToldAt offer.now at (pairs (run_at (all_kept runs.old) at)) }
    ensures runs { OnOk result (all_kept runs.new ≡ runs_after_offer offer.now.plan.now
        (departs_at offer.now.plan.now at (numbered offer.now) (all_kept runs.old)) at
        (numbered offer.now) (all_kept runs.old) None) }
    ensures told { OnOk result (Adds list.old.items list.new.items (offer_told offer.now.plan.now
        (departs_at offer.now.plan.now at (numbered offer.now) (all_kept runs.old)) at
        (numbered offer.now) (all_kept runs.old) None)) }
    ensures undoes { Undoes offer.now.plan.now offer.now.number (all_kept runs.old)
        (all_kept runs.new) }
{
    if departs(offer, &runs[at], at) {
        leave(&mut runs[at], list)?;
        return Ok(());
    }
    Ok(())
}

// The run at this place, which is open, is offered the event.
fn deal(
    offer: &Offer,
    shared: &mut Stock,
    runs: &mut [Run],
    at: usize,
    so_far: Reception,
    list: &mut Vec<Move>,
) -> Result<Reception, Memory>
    requires offer { IsOffer offer.now }
    requires shared { IsShared offer.now shared.old }
    requires good { All (Good offer.now.plan.now) (all_kept runs.old) }
    requires below { NumbersBelow offer.now.number (run_at (all_kept runs.old) at) }
    requires within { at < length runs.old }
    requires told { IsToldAt offer.now at (pairs (run_at (all_kept runs.old) at)) }
    ensures received { IfOk result (λ r. r ≡ reception_after_offer offer.now.plan.now
        (numbered offer.now) (run_at (all_kept runs.old) at) so_far
        (taken_at offer.now.plan.now at (numbered offer.now) (all_kept runs.old))) }
    ensures runs { OnOk result (all_kept runs.new ≡ runs_after_offer offer.now.plan.now
        (departs_at offer.now.plan.now at (numbered offer.now) (all_kept runs.old)) at
        (numbered offer.now) (all_kept runs.old)
        (taken_at offer.now.plan.now at (numbered offer.now) (all_kept runs.old))) }
    ensures told { OnOk result (Adds list.old.items list.new.items (offer_told offer.now.plan.now
        (departs_at offer.now.plan.now at (numbered offer.now) (all_kept runs.old)) at
        (numbered offer.now) (all_kept runs.old)
        (taken_at offer.now.plan.now at (numbered offer.now) (all_kept runs.old)))) }
    ensures shared { IsShared offer.now shared.new }
    ensures undoes { Undoes offer.now.plan.now offer.now.number (all_kept runs.old)
        (all_kept runs.new) }
{
    match takes(offer, &runs[at], at) {
        Some(name) => {
            let used = bind(offer, shared, runs, at, name, list)?;
            Ok(if used {
                Reception::Used
            } else {
                Reception::Taken
            })
        }
        None => {
            pass(offer, runs, at, list)?;
            Ok(so_far)
        }
    }
}

// Whether it is told of the run at this place that it neither takes the event nor is guarded by it, and it doesn't leave
// for that.
#[inline(always)]
fn is_passed_over(offer: &Offer, at: usize) -> bool
    requires { (r : definitions.Run) × IsToldAt offer.now at r }
    ensures none { IsTrue result
        → (r : definitions.Run) → IsToldAt offer.now at r
        → definitions.takes offer.now.plan.now r offer.now.event.now ≡ None }
    ensures stays { IsTrue result
        → (r : definitions.Run) → IsToldAt offer.now at r
        → definitions.departs offer.now.plan.now r offer.now.event.now ≡ false }
{
    match offer.plan.select {
        Select::First | Select::Each => offer.is_told && !has_bit(offer.takers.any, at),
        Select::Last => false,
    }
}

// One run's turn: it is offered the event unless it has left or the event was used.
#[inline(always)]
fn turn(
    offer: &Offer,
    shared: &mut Stock,
    runs: &mut [Run],
    at: usize,
    so_far: Reception,
    list: &mut Vec<Move>,
) -> Result<Reception, Memory>
    requires offer { IsOffer offer.now }
    requires shared { IsShared offer.now shared.old }
    requires good { All (Good offer.now.plan.now) (all_kept runs.old) }
    requires below { NumbersBelow offer.now.number (run_at (all_kept runs.old) at) }
    requires within { at < length runs.old }
    requires told { IsToldAt offer.now at (pairs (run_at (all_kept runs.old) at)) }
    ensures turned { IfOk result (λ r. IsTurn offer.now.plan.now at
        (numbered offer.now) (all_kept runs.old) (all_kept runs.new) (all_seen list.old.items)
        (all_seen list.new.items) so_far r) }
    ensures shared { IsShared offer.now shared.new }
    ensures undoes { Undoes offer.now.plan.now offer.now.number (all_kept runs.old)
        (all_kept runs.new) }
{
    if is_passed_over(offer, at) {
        return Ok(so_far);
    }
    if matches!(so_far, Reception::Used) || !runs[at].stays() {
        return Ok(so_far);
    }
    deal(offer, shared, runs, at, so_far, list)
}

/// The runs that are open when an event comes are offered it, the oldest first.
pub(crate) fn offer_to_all(
    offer: &Offer,
    shared: &mut Stock,
    runs: &mut [Run],
    list: &mut Vec<Move>,
) -> Result<Reception, Memory>
    requires offer { IsOffer offer.now }
    requires shared { IsShared offer.now shared.old }
    requires ready { IsSet offer.now.plan.now offer.now.number (all_kept runs.old) }
    requires none { list.old.items ≡ [] }
    requires told { AllTold offer.now (map pairs (all_kept runs.old)) }
    ensures going { IfOk result (λ r. AllHadTurns offer.now.plan.now (numbered offer.now)
        (all_kept runs.old) (all_kept runs.new) (all_seen list.new.items) r) }
    ensures quiet { OnOk result
        (all_seen list.new.items ≡ [] → all_kept runs.new ≡ all_kept runs.old) }
    ensures shared { IsShared offer.now shared.new }
    ensures undoes { Undoes offer.now.plan.now offer.now.number (all_kept runs.old)
        (all_kept runs.new) }
{
    let mut so_far = Reception::Passed;
    for at in 0..runs.len() {
        so_far = turn(offer, shared, runs, at, so_far, list)?;
    }
    Ok(so_far)
}
