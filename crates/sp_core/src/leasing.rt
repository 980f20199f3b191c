// A lease: the next unread events of a version go out under a ticket.
ghost use Rattle.std.specs.Prelude.{◌≡◌, ◌≤◌, ℕ, length, None, Some, IfOk, IfErr, IsSome, OnOk, OnErr};
ghost use Rattle.sp_base.specs.Limits.{batch_limit};
ghost use Rattle.sp_plan.specs.WindowNumbers.{size};
ghost use Rattle.sp_group.specs.declared.step.Step.TheVariants as s;
ghost use Rattle.sp_group.specs.Family.{entry_at};
ghost use Rattle.sp_tree.specs.Grown.{kin};
ghost use Rattle.sp_core.specs.Faults.{IsFault};
ghost use Rattle.sp_core.specs.Leasing.{HasBegun, IsLent, IsLeased, IsMatcherOf, is_closed, with_out};
ghost use Rattle.sp_core.specs.Running.{IsDone, after, refused};

use crate::rooms::{enter, make_room};
use crate::{Core, CoreFault, Lent, Memory, law};
use sp_group::{Refusal, Step};
use sp_piece::{Job, consumes};
use sp_plan::{Event, Listed};
use sp_share::{Shared, Spares};
use sp_tree::Tree;
use sp_version::Version;
use std::alloc::Global;

// A ticket is out for a version from now on.
fn put_out_for(tree: &mut Tree<Version>, version: u64, ticket: u64)
    ensures { tree.new ≡ with_out tree.old version ticket }
{
    if let Some(held) = tree.get_mut(version) {
        held.out = Some(ticket);
    }
}

// The matcher of a version that went, if there is one, is a spare one from then on. What is out for it has its rooms.
fn clear_away(tree: &mut Tree<Version>, spares: &mut Spares)
    ensures { tree.new ≡ tree.old }
{
    let Some(gone) = tree.take_left() else {
        return;
    };
    if gone.out.is_none() {
        gone.matcher.retire(spares);
    }
}

// Lends the matcher of a live version: a handle of it goes out, and contracts see the tree as before.
fn lend_matcher(
    alloc: Global,
    tree: &mut Tree<Version>,
    version: u64,
    spares: &mut Spares,
) -> Result<Shared, Memory>
    requires live { IsSome (entry_at kin tree.old.entries version) }
    ensures same { tree.new ≡ tree.old }
    ensures lent { IfOk result (λ before. IsMatcherOf tree.old version before) }
{
    clear_away(tree, spares);
    let Some(held) = tree.get_mut(version) else {
        unreachable!()
    };
    held.matcher.lend(alloc, spares)
}

impl Core {
    /// How many events of a window that has begun were fed, and whether it is closed: no event can join it any more.
    pub fn fed_of(&self, number: u32) -> (u32, bool)
        requires begun { HasBegun self.now number }
        ensures fed { result.0 ≡ size self.now.plan self.now.machine.events number }
        ensures closed { result.1 ≡ is_closed self.now number }
    {
        // A window that has begun is there, and the closed ones are those that come first.
        law::windows_hold();
        law::closed_come_first();
        let Some(window) = self.windows.get(number) else {
            unreachable!()
        };
        match window.end {
            Some(end) => (end + 1 - window.first, true),
            None => (self.events.len() as u32 + 1 - window.first, false),
        }
    }

    // Why a lease of a version is refused, however many events are asked for.
    pub(crate) fn lease_refusal(&self, version: u64) -> Option<Refusal>
        ensures { (count : ℕ) → result ≡ refused self.now (s.Lease version count) }
    {
        // The state is one to which steps lead: the window of a live version has begun.
        law::every_schedule();
        let Some(held) = self.tree.get(version) else {
            return Some(Refusal::NotLive { version });
        };
        if let Some(ticket) = held.out {
            return Some(Refusal::Out { ticket });
        }
        if let Some(event) = self.conflict_of(version) {
            return Some(Refusal::Conflict { event });
        }
        let position = held.position;
        let (fed, closed) = self.fed_of(held.window);
        if position < fed || closed && !held.done {
            None
        } else {
            Some(Refusal::NothingToRead { position })
        }
    }

    // What goes out under the next ticket, where at most `count` events are asked for.
    fn lent(&self, alloc: Global, version: u64, count: u32) -> Result<Lent, Memory>
        requires passes { refused self.now (s.Lease version count) ≡ None }
        ensures lent { IfOk result (IsLent self.now version count) }
        ensures version { IfOk result (λ lent. lent.version ≡ version) }
    {
        // The state is one to which steps lead: a version has read no more of its window than was fed.
        law::every_schedule();
        law::windows_hold();
        let Some(held) = self.tree.get(version) else {
            unreachable!()
        };
        let (fed, closed) = self.fed_of(held.window);
        let unread = fed - held.position;
        let first = held.first + held.position;
        let lent = unread.min(count);
        Ok(Lent {
            ticket: self.next_ticket,
            version,
            first,
            count: lent,
            snapshot: self.suppressed_within(alloc, version, first, lent)?,
            closes: closed && unread <= count,
        })
    }

    // The job that carries what is lent.
    fn job(&mut self, alloc: Global, lent: &Lent, count: u32) -> Result<Job, Memory>
        requires lent { IsLent self.old lent.now.version count lent.now }
        requires passes { refused self.old (s.Lease lent.now.version count) ≡ None }
        ensures same { self.new ≡ self.old }
        ensures job { IfOk result (IsLeased self.old lent.now.version count) }
        ensures events { IfOk result (λ job. length job.events ≡ lent.now.count) }
    {
        // The state is one to which steps lead: what is lent was fed. Where plans are the same they read
        // alike.
        law::every_schedule();
        law::compiled_plans_are_lawful();
        law::same_plans_read_alike();
        let fed = &self.events;
        let place = lent.first as usize - 1;
        let end = place + lent.count as usize;
        let events = Event::copies(alloc, &fed[place..end])?;
        let known = self.known[place..end].to_vec(alloc)?;
        Ok(Job {
            ticket: lent.ticket,
            version: lent.version,
            first: lent.first,
            before: lend_matcher(alloc, &mut self.tree, lent.version, &mut self.spares)?,
            events: Listed::of(events),
            known: Listed::of(known),
            snapshot: lent.snapshot.copy(alloc)?,
            closes: lent.closes,
            wants: consumes(&self.plan),
        })
    }

    // Enters the lease, and answers the job that carries what is lent.
    fn put_out(&mut self, alloc: Global, lent: Lent, count: u32) -> Result<Job, Memory>
        requires lent { IsLent self.old lent.version count lent }
        requires passes { refused self.old (s.Lease lent.version count) ≡ None }
        ensures ok { OnOk result (self.new ≡ after self.old (s.Lease lent.version count)) }
        ensures job { IfOk result (IsLeased self.old lent.version count) }
        ensures events { IfOk result (λ job. length job.events ≡ lent.count) }
        ensures err { OnErr result (self.new ≡ self.old) }
    {
        let job = self.job(alloc, &lent, count)?;
        let version = lent.version;
        let ticket = lent.ticket;
        make_room(&mut self.journal, self.tree.live())?;
        self.tickets.reserve(1)?;
        // There is room for it.
        let _ = self.tickets.insert(0, lent);
        self.next_ticket += 1;
        put_out_for(&mut self.tree, version, ticket);
        enter(&mut self.journal, Step::Lease { version, count }, 1);
        Ok(job)
    }

    // A lease that is not refused; answers what went out, and the job that carries it.
    pub(crate) fn lend(
        &mut self,
        alloc: Global,
        version: u64,
        count: u32,
    ) -> Result<(Lent, Job), Memory>
        requires passes { refused self.old (s.Lease version count) ≡ None }
        ensures ok { OnOk result (self.new ≡ after self.old (s.Lease version count)) }
        ensures lent { IfOk result (λ pair. IsLent self.old version count pair.0) }
        ensures job { IfOk result (λ pair. IsLeased self.old version count pair.1) }
        ensures events { IfOk result (λ pair. length pair.1.events ≡ pair.0.count) }
        ensures err { OnErr result (self.new ≡ self.old) }
    {
        let lent = self.lent(alloc, version, count)?;
        let told = lent.copy(alloc)?;
        let job = self.put_out(alloc, lent, count)?;
        Ok((told, job))
    }

    /// The next unread events of a version's window, at most `count`, 1 to 1,024, go out for reading, and the
    /// window's closing with them where they reach its end and it is closed. After a fault the core is as
    /// before. It is refused where the version is not live, a ticket is out for it, it is in conflict, and where
    /// there is nothing to read.
    pub fn lease(&mut self, alloc: Global, version: u64, count: u32) -> Result<Job, CoreFault>
        requires some { 1 ≤ count }
        requires most { count ≤ batch_limit }
        ensures done { OnOk result (IsDone (s.Lease version count) self.old self.new) }
        ensures job { IfOk result (IsLeased self.old version count) }
        ensures err { OnErr result (self.new ≡ self.old) }
        ensures fault { IfErr result (IsFault self.old (s.Lease version count)) }
    {
        if let Some(refusal) = self.lease_refusal(version) {
            return Err(CoreFault::Refused(refusal));
        }
        let lent = self.lent(alloc, version, count)?;
        Ok(self.put_out(alloc, lent, count)?)
    }
}
