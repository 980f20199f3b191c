// For which of the open runs an event counts, told of all of them at once.
ghost use Rattle.std.specs.Prelude.{◌≡◌, ℕ, ◌<◌, ◌≤◌, length, map, IsTrue, OnOk};
ghost use Rattle.std.specs.List.{All};
ghost use Rattle.sp_plan.specs.Bounds.{IsSmall};
ghost use Rattle.sp_plan.specs.Compiled.{IsCompiled};
ghost use Rattle.sp_plan.specs.Masks.{has};
ghost use Rattle.sp_match.specs.inside.Kept.{all_kept, pairs};
ghost use Rattle.sp_match.specs.inside.Good.{Good};
ghost use Rattle.sp_match.specs.inside.Takers.{AreHeld, AreTold, IsHeld, mask_of, run_in, takes_under};

use crate::Memory;
use crate::holdings::{Holding, Holdings};
use crate::run::Run;
use sp_plan::{Event, Plan, has_bit, holding};
use std::alloc::Global;

// Where fewer runs are open each is asked by itself.
const FEW: usize = 4;

// So many runs have bits.
const MOST: usize = 64;

/// The open runs for which an event counts, as bits: bit i is that of the run at place i. The room is used again.
#[derive(Drop)]
pub(crate) struct Takers {
    /// For each name of the plan the runs that may take it next or are guarded by it, and whose predicate the event
    /// fulfils.
    pub(crate) masks: Vec<u64>,
    /// The runs that take the event under some name, or are guarded by it.
    pub(crate) any: u64,
}

impl Takers {
    // No run. Takes no memory.
    pub(crate) fn new(alloc: Global) -> Takers {
        Takers {
            masks: Vec::new(alloc),
            any: 0,
        }
    }

    // Whether the run at this place takes the event under the name, or is guarded by it under that.
    #[inline(always)]
    pub(crate) fn has(&self, name: u8, at: usize) -> bool
        requires { at < 64 }
        ensures { result ≡ has (mask_of self.now.masks.items name) at }
    {
        match self.masks.as_slice().get(name as usize) {
            Some(mask) => has_bit(*mask, at),
            None => false,
        }
    }
}

// The runs that take the event under the name, or are guarded by it under that.
fn takers_under(
    alloc: Global,
    plan: &Plan,
    event: &Event,
    runs: &[Run],
    held: &[Holding],
    name: usize,
) -> u64
    requires compiled { IsCompiled plan.now }
    requires small { IsSmall event.now }
    requires good { All (Good plan.now) (all_kept runs.now) }
    requires held { AreHeld plan.now (map pairs (all_kept runs.now)) held.now }
    requires named { name < length plan.now.names }
    ensures { (at : ℕ) → at < length runs.now → has result at ≡ takes_under plan.now event.now
        (run_in (map pairs (all_kept runs.now)) at) name }
{
    let asked = held[name].wanting;
    if asked == 0 {
        return 0;
    }
    let pred = &plan.names.as_slice()[name].pred;
    holding(alloc, pred, event, &held[name].columns, runs, asked)
}

// The runs that take the event or are guarded by it.
fn takers_among(
    alloc: Global,
    plan: &Plan,
    event: &Event,
    runs: &[Run],
    held: &[Holding],
    takers: &mut Takers,
) -> Result<(), Memory>
    requires compiled { IsCompiled plan.now }
    requires small { IsSmall event.now }
    requires good { All (Good plan.now) (all_kept runs.now) }
    requires held { AreHeld plan.now (map pairs (all_kept runs.now)) held.now }
    ensures { OnOk result
        (AreTold plan.now event.now takers.new (map pairs (all_kept runs.now))) }
{
    let names = plan.names.as_slice().len();
    takers.masks.clear();
    takers.masks.reserve(names)?;
    takers.any = 0;
    for name in 0..names {
        let mask = takers_under(alloc, plan, event, runs, held, name);
        takers.masks.push_reserved(mask);
        takers.any |= mask;
    }
    Ok(())
}

/// Finds the open runs that take the event or are guarded by it, where so many are open that it pays to ask predicates
/// once for all of them. False where it doesn't, and where memory is wanting: then each run is asked by itself.
#[inline(always)]
pub(crate) fn takers_of(
    alloc: Global,
    plan: &Plan,
    event: &Event,
    runs: &[Run],
    holdings: &mut Holdings,
    takers: &mut Takers,
) -> bool
    requires compiled { IsCompiled plan.now }
    requires small { IsSmall event.now }
    requires good { All (Good plan.now) (all_kept runs.now) }
    requires held { IsHeld plan.now (map pairs (all_kept runs.now)) holdings.old }
    ensures told { IsTrue result
        → AreTold plan.now event.now takers.new (map pairs (all_kept runs.now)) }
    ensures held { IsHeld plan.now (map pairs (all_kept runs.now)) holdings.new }
{
    if runs.len() < FEW || runs.len() > MOST {
        return false;
    }
    match holdings.refresh(alloc, plan, event, runs) {
        Ok(()) => takers_among(alloc, plan, event, runs, &holdings.names, takers).is_ok(),
        Err(_) => false,
    }
}
