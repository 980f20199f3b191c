// Run by run, the open runs are offered an event.
ghost use Rattle.std.specs.Prelude.{◌≡◌, ◌+◌, ◌<◌, ◌≤◌, ◌++◌, not, take, drop, filter, length, IfOk, OnOk};
ghost use Rattle.sp_plan.specs.Runs as definitions;
ghost use Rattle.sp_plan.specs.Runs.{holds_one};
ghost use Rattle.sp_scan.specs.inside.Offer.{IsOffer, IsShared, numbered};
ghost use Rattle.sp_scan.specs.inside.Shown.{AreLeft, IsGrown, IsTurn, IsTurnOfReady};

use crate::asking::{departs, passes_over, takes};
use crate::found::{Found, bindings};
use crate::offer::{Offer, share};
use crate::run::Run;
use sp_base::Numbers;
use sp_plan::{Listed, Memory, Places, SharedEvent};

/// How far the handling of an event has come: the runs, of which those in front have had their turn and stay open
/// and the others are still to have it; what those that matched come to; and the numbers that these used in it.
#[derive(Drop)]
pub(crate) struct Turns {
    pub(crate) runs: Vec<Run>,
    pub(crate) found: Vec<Found>,
    pub(crate) taken: Numbers,
}

// Of the first so many runs those leave that hold one of the numbers. Answers how many stay.
fn drop_holders(runs: &mut Vec<Run>, count: usize, numbers: &Numbers) -> usize
    requires { count ≤ length runs.old.items }
    ensures items { runs.new.items
        ≡ filter (λ run. not (holds_one numbers.now.list run.pairs)) (take count runs.old.items)
        ++ drop count runs.old.items }
    ensures left { result ≡ length (filter (λ run. not (holds_one numbers.now.list run.pairs))
        (take count runs.old.items)) }
{
    let mut left = 0;
    for _turn in 0..count {
        if runs[left].pairs.hold_one(numbers) {
            runs.remove(left);
        } else {
            left += 1;
        }
    }
    left
}

// The run at this place binds the event to the name.
fn bind_at(
    offer: &Offer,
    shared: &mut Option<SharedEvent>,
    runs: &mut [Run],
    at: usize,
    name: u8,
) -> Result<(), Memory>
    requires offer { IsOffer offer.now }
    requires shared { IsShared offer.now shared.old }
    requires left { AreLeft offer.now runs.old at }
    ensures grown { OnOk result (IsGrown offer.now runs.old runs.new at name) }
    ensures shared { IsShared offer.now shared.new }
{
    let event = share(offer, shared)?;
    runs[at].bind(offer, name, event)
}

impl Turns {
    // The run at this place has matched: it leaves, and each other run that holds one of its used numbers. Answers
    // how many runs in front stay, as all of these calls do.
    fn complete(&mut self, offer: &Offer, at: usize) -> Result<usize, Memory>
        requires offer { IsOffer offer.now }
        requires within { at < length self.old.runs.items }
        ensures { IfOk result (λ left. IsTurn offer.now.plan.now (offer.now.number + 1)
            self.old self.new at left (definitions.completed offer.now.plan.now)) }
    {
        let run = self.runs.remove(at);
        let used = run.pairs.used(offer.alloc, offer.plan)?;
        let bound = bindings(offer.alloc, offer.plan, &run.pairs)?;
        let left = drop_holders(&mut self.runs, at, &used);
        self.taken.union(offer.alloc, &used)?;
        self.found.push(Found {
            bound: Listed::of(bound),
            used: Places::of(used),
        })?;
        Ok(left)
    }

    // The run at this place, which has one pair more, stays or has matched.
    pub(crate) fn settle(&mut self, offer: &Offer, at: usize) -> Result<usize, Memory>
        requires offer { IsOffer offer.now }
        requires within { at < length self.old.runs.items }
        ensures { IfOk result (λ left. IsTurnOfReady offer.now.plan.now (offer.now.number + 1)
            self.old self.new at left (definitions.grown offer.now.plan.now)) }
    {
        if self.runs[at].is_complete() {
            return self.complete(offer, at);
        }
        Ok(at + 1)
    }

    // The run at this place is offered the event: it takes it, leaves, or passes over it.
    fn offered(
        &mut self,
        offer: &Offer,
        shared: &mut Option<SharedEvent>,
        at: usize,
    ) -> Result<usize, Memory>
        requires offer { IsOffer offer.now }
        requires shared { IsShared offer.now shared.old }
        requires left { AreLeft offer.now self.old.runs.items at }
        ensures turn { IfOk result (λ left. IsTurn offer.now.plan.now (offer.now.number + 1)
            self.old self.new at left (λ h run. definitions.offered offer.now.plan.now
            (numbered offer.now) h run
            (definitions.takes offer.now.plan.now run.1 offer.now.event.now))) }
        ensures shared { IsShared offer.now shared.new }
    {
        match takes(offer, &self.runs[at]) {
            Some(name) => {
                bind_at(offer, shared, &mut self.runs, at, name)?;
                self.settle(offer, at)
            }
            None => {
                if departs(offer, &self.runs[at]) {
                    self.runs.remove(at);
                    return Ok(at);
                }
                Ok(at + 1)
            }
        }
    }

    // The turn of the run at this place: it leaves where it holds a used number, and is offered no event that is used.
    // Most events concern few of the runs: those that pass it over aren't asked.
    #[inline(always)]
    pub(crate) fn take_turn(
        &mut self,
        offer: &Offer,
        shared: &mut Option<SharedEvent>,
        at: usize,
    ) -> Result<usize, Memory>
        requires offer { IsOffer offer.now }
        requires shared { IsShared offer.now shared.old }
        requires left { AreLeft offer.now self.old.runs.items at }
        ensures turn { IfOk result (λ left. IsTurn offer.now.plan.now (offer.now.number + 1)
            self.old self.new at left
            (definitions.handle_run offer.now.plan.now (numbered offer.now))) }
        ensures shared { IsShared offer.now shared.new }
    {
        if self.taken.list().is_empty() {
            if passes_over(offer, &self.runs[at]) {
                return Ok(at + 1);
            }
            return self.offered(offer, shared, at);
        }
        if self.runs[at].pairs.hold_one(&self.taken) {
            self.runs.remove(at);
            return Ok(at);
        }
        if self.taken.has(offer.number) {
            return Ok(at + 1);
        }
        self.offered(offer, shared, at)
    }
}
