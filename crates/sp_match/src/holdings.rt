// What is kept beside the open runs, so that a predicate is asked once for all of them.
ghost use Rattle.std.specs.Prelude.{◌≡◌, ℕ, ◌<◌, ◌≤◌, Bool, List, length, map, true, false, slice_index_or, IfOk, IsTrue, OnOk};
ghost use Rattle.std.specs.List.{All};
ghost use Rattle.sp_plan.specs.Bounds.{IsSmall, PredWithin};
ghost use Rattle.sp_plan.specs.Compiled.{IsCompiled};
ghost use Rattle.sp_plan.specs.Held.{held_columns, put};
ghost use Rattle.sp_plan.specs.Masks.{has};
ghost use Rattle.sp_plan.specs.declared.plan.Plan.{Plan};
ghost use Rattle.sp_plan.specs.Runs as definitions;
ghost use Rattle.sp_plan.specs.Runs.{bound_events};
ghost use Rattle.sp_plan.specs.Values.{BoundEvents};
ghost use Rattle.sp_match.specs.inside.Kept.{Kept, all_kept, kept, pairs};
ghost use Rattle.sp_match.specs.inside.Good.{Good};
ghost use Rattle.sp_match.specs.inside.Takers.{AreAlike, AreGrown, AreHeld, GoesOn, IsHeld, columns_of, columns_under, is_wanted, masks_of, reads_of, run_in};
ghost use Rattle.sp_match.specs.inside.Going.{IsIdle};
ghost use Rattle.sp_match.specs.inside.Offer.{IsOffer};
ghost use Rattle.sp_match.specs.inside.Takers as takers;

use crate::Memory;
use crate::offer::Offer;
use crate::run::Run;
use crate::taking::wants;
use sp_plan::{
    Event, HeldColumn, Name, Plan, Pred, held_sides_read, hold_columns, hold_run, law, put_bit,
    with_bit,
};
use std::alloc::Global;

/// What is kept of a name of the plan.
#[derive(Drop)]
pub(crate) struct Holding {
    /// The open runs that may take it next or are guarded by it, as bits.
    pub(crate) wanting: u64,
    /// What the held sides of its predicate come to for each open run.
    pub(crate) columns: Vec<HeldColumn>,
    /// Whether a held side of some predicate reads an event that is bound to it.
    pub(crate) is_read: bool,
}

/// What is kept of each name of the plan: it is so of the open runs where it is fresh.
#[derive(Drop)]
pub(crate) struct Holdings {
    pub(crate) is_fresh: bool,
    pub(crate) names: Vec<Holding>,
}

// The runs that may take the name next or are guarded by it, as bits.
fn wanting(plan: &Plan, runs: &[Run], name: u8) -> u64
    requires compiled { IsCompiled plan.now }
    requires good { All (Good plan.now) (all_kept runs.now) }
    requires few { length runs.now ≤ 64 }
    requires named { name < 32 }
    ensures { (at : ℕ) → at < length runs.now → has result at
        ≡ is_wanted plan.now (run_in (map pairs (all_kept runs.now)) at) name }
{
    let mut mask = 0;
    for at in 0..runs.len() {
        mask = with_bit(mask, at, wants(plan, &runs[at], name));
    }
    mask
}

// What the held sides of a predicate come to for each of the runs. The event is not read.
fn columns(
    alloc: Global,
    plan: &Plan,
    pred: &Pred,
    event: &Event,
    runs: &[Run],
) -> Result<Vec<HeldColumn>, Memory>
    requires within { PredWithin pred.now }
    requires small { IsSmall event.now }
    requires good { All (Good plan.now) (all_kept runs.now) }
    requires few { length runs.now ≤ 64 }
    ensures { IfOk result (λ columns. columns.items
        ≡ held_columns pred.now (map bound_events (map pairs (all_kept runs.now)))) }
{
    hold_columns(alloc, pred, event, runs)
}

// Whether a held side of the other name's predicate reads an event that is bound to the name.
fn is_read_by(name: u8, other: &Name) -> bool
    ensures { result ≡ takers.is_read_by name other.now }
{
    held_sides_read(&other.pred, name)
}

// Whether a held side of some name's predicate does.
fn is_read(plan: &Plan, name: u8) -> bool
    ensures { result ≡ takers.is_read plan.now name }
{
    plan.names
        .as_slice()
        .iter()
        .any(|other| is_read_by(name, other))
}

// What is kept of each name of the plan is so of these runs. The event is not read.
fn keep(
    alloc: Global,
    plan: &Plan,
    event: &Event,
    runs: &[Run],
    kept: &mut Vec<Holding>,
) -> Result<(), Memory>
    requires compiled { IsCompiled plan.now }
    requires small { IsSmall event.now }
    requires good { All (Good plan.now) (all_kept runs.now) }
    requires few { length runs.now ≤ 64 }
    ensures { OnOk result (AreHeld plan.now (map pairs (all_kept runs.now)) kept.new.items) }
{
    kept.clear();
    let names = plan.names.as_slice();
    for name in 0..names.len() {
        kept.push(Holding {
            wanting: wanting(plan, runs, name as u8),
            columns: columns(alloc, plan, &names[name].pred, event, runs)?,
            is_read: is_read(plan, name as u8),
        })?;
    }
    Ok(())
}

// What is kept of a name follows the run at this place, which may be one more, behind the others. After want of memory
// nothing is known of it.
fn keep_name(
    plan: &Plan,
    event: &Event,
    run: &Run,
    at: usize,
    name: usize,
    holding: &mut Holding,
) -> Result<(), Memory>
    requires compiled { IsCompiled plan.now }
    requires small { IsSmall event.now }
    requires good { Good plan.now (kept run.now) }
    requires few { at < 64 }
    requires named { name < length plan.now.names }
    requires held { (bounds : List BoundEvents)
        × (holding.old.columns.items ≡ columns_under plan.now name bounds) }
    ensures read { holding.new.is_read ≡ holding.old.is_read }
    ensures here { has holding.new.wanting at
        ≡ is_wanted plan.now (pairs (kept run.now)) name }
    ensures others { (other : ℕ) → other < 64 → (other ≡ at → ⊥)
        → has holding.new.wanting other ≡ has holding.old.wanting other }
    ensures columns { (bounds : List BoundEvents)
        → holding.old.columns.items ≡ columns_under plan.now name bounds
        → OnOk result (holding.new.columns.items ≡ columns_under plan.now name
        (put bounds at (bound_events (pairs (kept run.now))))) }
{
    holding.wanting = put_bit(holding.wanting, at, wants(plan, run, name as u8));
    let pred = &plan.names.as_slice()[name].pred;
    hold_run(pred, event, &run.events, at, &mut holding.columns)
}

// What is kept of each name does.
fn keep_run(
    plan: &Plan,
    event: &Event,
    run: &Run,
    at: usize,
    held: &mut [Holding],
) -> Result<(), Memory>
    requires compiled { IsCompiled plan.now }
    requires small { IsSmall event.now }
    requires good { Good plan.now (kept run.now) }
    requires few { at < 64 }
    requires held { (rs : List definitions.Run) × AreHeld plan.now rs held.old }
    ensures { (rs : List definitions.Run) → AreHeld plan.now rs held.old → at ≤ length rs
        → OnOk result (AreHeld plan.now (put rs at (pairs (kept run.now))) held.new) }
{
    for name in 0..plan.names.as_slice().len() {
        keep_name(plan, event, run, at, name, &mut held[name])?;
    }
    Ok(())
}

// What is kept of each name once more, in a room that is used again.
fn copy_names(alloc: Global, names: &[Holding], copies: &mut Vec<Holding>) -> Result<(), Memory>
    ensures masks { OnOk result (masks_of copies.new.items ≡ masks_of names.now) }
    ensures columns { OnOk result (columns_of copies.new.items ≡ columns_of names.now) }
    ensures reads { OnOk result (reads_of copies.new.items ≡ reads_of names.now) }
{
    copies.clear();
    copies.reserve(names.len())?;
    for name in names {
        copies.push_reserved(Holding {
            wanting: name.wanting,
            columns: HeldColumn::copies(alloc, &name.columns)?,
            is_read: name.is_read,
        });
    }
    Ok(())
}

impl Holdings {
    // Nothing is kept. Takes no memory.
    pub(crate) fn new(alloc: Global) -> Holdings
        ensures { result.is_fresh ≡ false }
    {
        Holdings {
            is_fresh: false,
            names: Vec::new(alloc),
        }
    }

    // What is kept is fresh from now on. The event is not read. After want of memory it isn't fresh.
    pub(crate) fn refresh(
        &mut self,
        alloc: Global,
        plan: &Plan,
        event: &Event,
        runs: &[Run],
    ) -> Result<(), Memory>
        requires compiled { IsCompiled plan.now }
        requires small { IsSmall event.now }
        requires good { All (Good plan.now) (all_kept runs.now) }
        requires few { length runs.now ≤ 64 }
        requires held { IsHeld plan.now (map pairs (all_kept runs.now)) self.old }
        ensures fresh { OnOk result
            (AreHeld plan.now (map pairs (all_kept runs.now)) self.new.names.items) }
        ensures held { IsHeld plan.now (map pairs (all_kept runs.now)) self.new }
    {
        if self.is_fresh {
            return Ok(());
        }
        keep(alloc, plan, event, runs, &mut self.names)?;
        self.is_fresh = true;
        Ok(())
    }

    // What is kept isn't so any more.
    pub(crate) fn forget(&mut self)
        ensures { self.new.is_fresh ≡ false }
    {
        self.is_fresh = false;
    }

    // What is kept is what others keep, where that is fresh: else, and after want of memory, it isn't so any more.
    pub(crate) fn copy_from(&mut self, alloc: Global, others: &Holdings)
        ensures { (q : Plan) (rs : List definitions.Run) → IsHeld q rs others.now
            → IsHeld q rs self.new }
    {
        self.is_fresh = others.is_fresh
            && copy_names(alloc, &others.names, &mut self.names).is_ok();
    }

    // An event was handled, when so many runs were open: what is kept stays fresh where all of them stay, and follows
    // those that bound the event. Answers whether it is known that they stay; the runs that don't are still there.
    pub(crate) fn outlive(
        &mut self,
        offer: &Offer,
        runs: &[Run],
        count: usize,
        is_quiet: bool,
    ) -> bool
        requires offer { IsOffer offer.now }
        requires good { All (Good offer.now.plan.now) (all_kept runs.now) }
        requires was { (old : List Kept)
            × AreGrown offer.now.plan.now offer.now.number count is_quiet old (all_kept runs.now)
            × IsHeld offer.now.plan.now (map pairs old) self.old }
        ensures idle { IsTrue result → All IsIdle (all_kept runs.now) }
        ensures held { IsHeld offer.now.plan.now (map pairs (all_kept runs.now)) self.new }
        ensures stale { result ≡ false → self.new.is_fresh ≡ false }
    {
        if is_quiet {
            return true;
        }
        self.is_fresh = self.is_fresh && all_follow(offer, runs, count, &mut self.names);
        self.is_fresh
    }
}

// Whether a held side reads an event that is bound to the name, as it is kept.
fn is_kept_read(held: &[Holding], name: u8) -> bool
    ensures { result ≡ slice_index_or (reads_of held.now) name true }
{
    match held.get(name as usize) {
        Some(holding) => holding.is_read,
        None => true,
    }
}

// Whether the run goes on as it was before the event of this number.
#[inline(always)]
fn goes_on(run: &Run, number: u32, held: &[Holding]) -> bool
    ensures { (q : Plan) (rs : List definitions.Run) → AreHeld q rs held.now
        → IsTrue result → GoesOn q number (kept run.now) }
{
    if !run.stays() {
        return false;
    }
    match run.last_under(number) {
        Some(name) => run.repeats(name) && !is_kept_read(held, name),
        None => true,
    }
}

// What is kept follows the run at this place, if the run stays; `is_old` says whether it was open when the event came.
// Where the run goes on as it was, that is done.
#[inline(always)]
fn follow(offer: &Offer, run: &Run, at: usize, is_old: bool, held: &mut [Holding]) -> bool
    requires offer { IsOffer offer.now }
    requires good { Good offer.now.plan.now (kept run.now) }
    requires few { at < 64 }
    requires held { (rs : List definitions.Run) × AreHeld offer.now.plan.now rs held.old }
    ensures idle { IsTrue result → IsIdle (kept run.now) }
    ensures held { (rs : List definitions.Run) → AreHeld offer.now.plan.now rs held.old
        → at ≤ length rs
        → (IsTrue is_old → GoesOn offer.now.plan.now offer.now.number (kept run.now)
        → (at < length rs) × AreAlike offer.now.plan.now (run_in rs at) (pairs (kept run.now)))
        → IsTrue result
        → AreHeld offer.now.plan.now (put rs at (pairs (kept run.now))) held.new }
{
    // What a run binds that no held side reads changes nothing of what is kept.
    law::held_sides_stand_alone();
    if is_old && goes_on(run, offer.number, held) {
        return true;
    }
    if !run.stays() {
        return false;
    }
    keep_run(offer.plan, offer.event, run, at, held).is_ok()
}

// What is kept follows all runs, if they stay; so many of them were open when the event came.
fn all_follow(offer: &Offer, runs: &[Run], count: usize, held: &mut [Holding]) -> bool
    requires offer { IsOffer offer.now }
    requires good { All (Good offer.now.plan.now) (all_kept runs.now) }
    requires was { (is_quiet : Bool) × (old : List Kept)
        × AreGrown offer.now.plan.now offer.now.number count is_quiet old (all_kept runs.now)
        × AreHeld offer.now.plan.now (map pairs old) held.old }
    ensures idle { IsTrue result → All IsIdle (all_kept runs.now) }
    ensures held { IsTrue result
        → AreHeld offer.now.plan.now (map pairs (all_kept runs.now)) held.new }
{
    if runs.len() < count || runs.len() > 64 {
        return false;
    }
    for at in 0..runs.len() {
        if !follow(offer, &runs[at], at, at < count, held) {
            return false;
        }
    }
    true
}
