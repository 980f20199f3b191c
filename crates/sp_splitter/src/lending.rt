// What is ready is leased.
ghost use Rattle.std.specs.Prelude.{◌≡◌, ◌≤◌, ◌+◌, ◌*◌, ◌++◌, ◌∷◌, ◌||◌, ℕ, length, [], take, not, nat_le, nat_lt, None, IfOk, OnOk, OnErr};
ghost use Rattle.sp_base.specs.Limits.{batch_limit};
ghost use Rattle.sp_plan.specs.WindowNumbers.{size};
ghost use Rattle.sp_chance.specs.Shares.{share_of};
ghost use Rattle.sp_group.specs.declared.step.Step.TheVariants as s;
ghost use Rattle.sp_group.specs.Steps.{IsLentOut, IsSpreadOut, out_count};
ghost use Rattle.sp_piece.specs.declared.job.Job as piece;
ghost use Rattle.sp_core.specs.Leasing.{HasBegun};
ghost use Rattle.sp_core.specs.Running.{after, refused};
ghost use Rattle.sp_spread.specs.Calm.{Settled};
ghost use Rattle.sp_spread.specs.Guessing.{AreGuessed};
ghost use Rattle.sp_splitter.specs.Breeding.{IsWide};
ghost use Rattle.sp_splitter.specs.Lending as definitions;
ghost use Rattle.sp_splitter.specs.Keeping.{AreApart, AreReady, Lends};
ghost use Rattle.sp_splitter.specs.Lending.{ArePicked, Leases};
ghost use Rattle.sp_splitter.specs.Splitting.{IsBelowKept};
ghost use Rattle.sp_splitter.specs.Stages.{Goes, NoneEmitted, NoneRead, Went};

use crate::counting::count_out;
use crate::{Memory, law};
use sp_base::limits::BATCH_LIMIT;
use sp_chance::Chances;
use sp_core::{Core, CoreFault};
use sp_lend::{Lender, Lending, Loan};
use sp_pick::pick;
use sp_plan::Plan;
use sp_version::Version;
use std::alloc::{AllocError, Global};
use std::collections::VecDeque;

// The least that a lease asks for, or as many as any may where these are fewer.
const LEAST: u32 = 8;

/// For how many events leases ask.
#[derive(Clone, Copy, Drop)]
pub(crate) struct Asking {
    /// The longest lease, of 1 to 1,024 events.
    pub(crate) most: u32,
    /// Whether children are shy: each asks for one event.
    pub(crate) shy: bool,
}

// The ready versions that are picked, as many as there are places for `instances` and one more.
fn picked(alloc: Global, core: &Core, chances: &Chances, instances: u32) -> Result<Vec<u64>, Memory>
    requires { instances ≤ 16 }
    ensures picked { IfOk result (λ ids.
        ArePicked (share_of chances.now) instances core.now ids.items) }
    ensures ready { IfOk result (λ ids. AreReady core.now ids.items) }
    ensures apart { IfOk result (λ ids. AreApart ids.items) }
{
    let ready = core.ready(alloc)?;
    let places = (instances + 1).saturating_sub(count_out(alloc, core)?);
    pick(alloc, core.tree(), chances, &ready, places)
}

// Leases a version, and keeps its job behind the others.
fn lend_one<B: Lending>(
    alloc: Global,
    core: &mut Lender<B>,
    id: u64,
    batch: u32,
    kept: &mut VecDeque<Loan<B>>,
) -> Result<(), Memory>
    requires some { 1 ≤ batch }
    requires most { batch ≤ batch_limit }
    requires passes { refused core.old (s.Lease id batch) ≡ None }
    ensures leased { OnOk result (core.new ≡ after core.old (s.Lease id batch)) }
    ensures kept { OnOk result ((job : piece.Job) × (job.ticket ≡ core.old.machine.next_ticket)
        × (kept.new.items ≡ kept.old.items ++ job ∷ [])) }
    ensures err { OnErr result (core.new ≡ core.old) }
    ensures kept_err { OnErr result (kept.new.items ≡ kept.old.items) }
{
    kept.reserve(1)?;
    match core.lease(alloc, id, batch) {
        Ok(job) => {
            kept.push_back_reserved(job);
            Ok(())
        }
        Err(CoreFault::Memory) => Err(AllocError),
        Err(CoreFault::Refused(_)) => unreachable!(),
    }
}

// Whether a match can consume an event.
fn consumes(plan: &Plan) -> bool
    ensures { result ≡ definitions.consumes plan.now }
{
    plan.names.as_slice().iter().any(|name| name.consumed)
}

/// How many events a lease asks for at most: a batch; but as many as any lease may where no match can consume an event,
/// since nothing that is read is ever lost there.
pub(crate) fn longest_lease(plan: &Plan, batch: u32) -> u32
    requires some { 1 ≤ batch }
    requires most { batch ≤ batch_limit }
    ensures longest { result ≡ definitions.longest_lease plan.now batch }
    ensures some { 1 ≤ result }
    ensures most { result ≤ batch_limit }
{
    if consumes(plan) { batch } else { BATCH_LIMIT }
}

// The number of the event that a version reads next.
fn next_read(held: &Version) -> u64
    ensures { result ≡ held.now.first + held.now.position }
{
    held.first as u64 + held.position as u64
}

// Whether a version may be leased whatever its parent has read: it has read less than two of the longest leases; or the
// parent keeps nothing from it that the parent has yet to read, since the parent is done, or its window ends before the
// event that the version reads next, or nothing can be consumed.
fn is_free(core: &Core, parent: &Version, held: &Version, most: u32) -> bool
    requires begun { HasBegun core.now parent.now.window }
    ensures { result ≡ (nat_lt held.now.position (2 * most) || (parent.now.done || (nat_le
        (parent.now.first + size core.now.plan core.now.machine.events parent.now.window)
        (held.now.first + held.now.position) || not (definitions.consumes core.now.plan)))) }
{
    let end = parent.first as u64 + core.fed_of(parent.window).0 as u64;
    (held.position as u64) < 2 * most as u64
        || parent.done
        || end <= next_read(held)
        || !consumes(core.plan())
}

// How many events a lease of a version asks for: as many as any may; but a child one, where children are shy; and else,
// where its parent may keep from it what the parent has yet to read, no event behind those that the parent has read, and
// eight at least. What the version reads before its parent, and the parent then uses, lets it begin anew: early in
// its window that costs little.
fn asked(core: &Core, id: u64, most: u32, shy: bool) -> u32
    requires some { 1 ≤ most }
    ensures count { result ≡ definitions.asked shy most core.now id }
    ensures some { 1 ≤ result }
    ensures most { result ≤ most }
{
    // It tells what every core keeps.
    core.finished();
    let tree = core.tree();
    let Some(held) = tree.get(id) else {
        return most;
    };
    let Some(above) = tree.parent(id) else {
        return most;
    };
    let Some(parent) = tree.get(above) else {
        return most;
    };
    if shy {
        return 1;
    }
    if is_free(core, parent, held, most) {
        return most;
    }
    let read = next_read(parent).saturating_sub(next_read(held));
    read.clamp(most.min(LEAST) as u64, most as u64) as u32
}

// Leases the versions of these ids, one after another, each for the events that it asks for.
fn lend_all<B: Lending>(
    alloc: Global,
    core: &mut Lender<B>,
    ids: &[u64],
    asking: Asking,
    kept: &mut VecDeque<Loan<B>>,
) -> Result<(), Memory>
    requires some { 1 ≤ asking.most }
    requires most { asking.most ≤ batch_limit }
    requires ready { AreReady core.old ids.now }
    requires apart { AreApart ids.now }
    ensures lends { OnOk result (Lends asking.shy asking.most ids.now core.old core.new) }
    ensures kept { OnOk result (length kept.new.items ≡ length kept.old.items + length ids.now) }
    ensures part { (count : ℕ) × Lends asking.shy asking.most (take count ids.now) core.old core.new }
    ensures rising { (last : ℕ) → IsBelowKept last kept.old.items core.old.machine.next_ticket
        → IsBelowKept last kept.new.items core.new.machine.next_ticket }
{
    for id in ids {
        law::known(core);
        let count = asked(core.core(), *id, asking.most, asking.shy);
        lend_one(alloc, core, *id, count, kept)?;
    }
    Ok(())
}

/// Leases the versions that are picked of the ready ones, until `instances + 1` tickets of live versions are out
/// or none is ready, each for the events that it asks for, and keeps their jobs behind the others, one for each
/// ticket.
pub(crate) fn lend<B: Lending>(
    alloc: Global,
    core: &mut Lender<B>,
    chances: &Chances,
    instances: u32,
    asking: Asking,
    kept: &mut VecDeque<Loan<B>>,
) -> Result<(), Memory>
    requires instances { instances ≤ 16 }
    requires some { 1 ≤ asking.most }
    requires most { asking.most ≤ batch_limit }
    requires settled { Settled core.old.plan core.old.machine }
    requires spread_out { IsSpreadOut core.old.plan core.old.bound instances core.old.machine }
    ensures went { Went instances asking.most core.old core.new }
    ensures goes { OnOk result (Goes instances core.old core.new) }
    ensures emitted { NoneEmitted core.old core.new }
    ensures read { NoneRead core.old core.new }
    ensures settled { OnOk result (Settled core.new.plan core.new.machine) }
    ensures guessed { OnOk result ((m share : ℕ → ℕ → ℕ)
        → AreGuessed core.old.plan core.old.machine m share
        → AreGuessed core.new.plan core.new.machine m share) }
    ensures wide { OnOk result
        ((share : ℕ → ℕ → ℕ) (n : ℕ) → IsWide share n core.old → IsWide share n core.new) }
    ensures lent { OnOk result (IsLentOut core.new.plan core.new.bound instances core.new.machine) }
    ensures kept { OnOk result (length kept.new.items + out_count core.old.machine
        ≡ length kept.old.items + out_count core.new.machine) }
    ensures leases { OnOk result (Leases (share_of chances.now) instances asking.most core.old core.new) }
    ensures rising { (last : ℕ) → IsBelowKept last kept.old.items core.old.machine.next_ticket
        → IsBelowKept last kept.new.items core.new.machine.next_ticket }
{
    let ids = picked(alloc, core.core(), chances, instances)?;
    lend_all(alloc, core, &ids, asking, kept)
}
