// What is suppressed for a version: what is consumed, what the matches of its ancestors used, and the groups
// that its label and theirs name. All of it is looked for within a range of numbers, from the version up to
// the root.
ghost use Rattle.std.specs.Prelude.{◌≡◌, ℕ, ◌<◌, false, IfOk, IsSome, is_none};
ghost use Rattle.sp_group.specs.declared.step.Step.TheVariants as s;
ghost use Rattle.sp_group.specs.Machine.{version_at};
ghost use Rattle.sp_core.specs.Running.{refused};
ghost use Rattle.sp_core.specs.Withheld.{lesser};
ghost use Rattle.sp_core.specs.Suppressing.{conflict_at, is_unskipped, least_suppressed, ready_ids, suppressed_within};
ghost use Rattle.sp_spread.specs.Calm.{AreCalm};

use crate::lent::lent_under;
use crate::news::first_new;
use crate::withheld::{least_withheld, withheld_within};
use crate::{Core, Memory, law};
use sp_base::Numbers;
use sp_version::least_unskipped;
use std::alloc::Global;

// The lesser of two numbers, where both are there, and else the one that is.
pub(crate) fn lesser(one: Option<u32>, other: Option<u32>) -> Option<u32>
    ensures { result ≡ lesser one other }
{
    match (one, other) {
        (Some(one), Some(other)) => Some(one.min(other)),
        (None, other) => other,
        (one, None) => one,
    }
}

impl Core {
    // The least of so many numbers from `first` on that is suppressed for a live version, and not skipped.
    pub(crate) fn least_suppressed(
        &self,
        version: u64,
        first: u32,
        count: u32,
        skipped: &Numbers,
    ) -> Option<u32>
        requires live { IsSome (version_at self.now.machine.versions version) }
        ensures { result
            ≡ least_suppressed self.now.plan self.now.machine version first count skipped.now.list }
    {
        let mut found = None;
        let mut below = version;
        while let Some(parent) = self.tree.parent(below) {
            let (Some(label), Some(held)) = (self.tree.label(below), self.tree.get(parent)) else {
                unreachable!()
            };
            found = lesser(found, least_withheld(held, label, first, count, skipped));
            below = parent;
        }
        lesser(
            found,
            least_unskipped(&self.consumed, first, count, skipped),
        )
    }

    // Those of so many numbers from `first` on that are suppressed for a live version.
    pub(crate) fn suppressed_within(
        &self,
        alloc: Global,
        version: u64,
        first: u32,
        count: u32,
    ) -> Result<Numbers, Memory>
        requires live { IsSome (version_at self.now.machine.versions version) }
        ensures { IfOk result
            (λ numbers. numbers.list
            ≡ suppressed_within self.now.plan self.now.machine version first count) }
    {
        // Rising lists are the same where they have the same members.
        law::rising_same();
        let mut numbers = self.consumed.cut_to(alloc, first, count)?;
        let mut below = version;
        while let Some(parent) = self.tree.parent(below) {
            let (Some(label), Some(held)) = (self.tree.label(below), self.tree.get(parent)) else {
                unreachable!()
            };
            withheld_within(alloc, held, label, first, count, &mut numbers)?;
            below = parent;
        }
        // They rise.
        numbers.list();
        Ok(numbers)
    }

    // The same, where all that are suppressed and not skipped are from a number on: none before it is looked at.
    fn least_suppressed_from(
        &self,
        version: u64,
        from: u32,
        first: u32,
        count: u32,
        skipped: &Numbers,
    ) -> Option<u32>
        requires live { IsSome (version_at self.now.machine.versions version) }
        requires old { (i : ℕ)
            → i < from
            → is_unskipped self.now.plan self.now.machine version first count skipped.now.list i
            ≡ false }
        ensures { result
            ≡ least_suppressed self.now.plan self.now.machine version first count skipped.now.list }
    {
        let before = from.saturating_sub(first).min(count);
        self.least_suppressed(version, first + before, count - before, skipped)
    }

    // The conflict of a version; None exactly where it is not live, or in none.
    pub(crate) fn conflict_of(&self, version: u64) -> Option<u32>
        ensures { result ≡ conflict_at self.now.plan self.now.machine version }
    {
        // The state is one to which steps lead: what a version read, and what is lent to it, is within its
        // window; and the root is in no conflict.
        law::every_schedule();
        if self.tree.parent(version).is_none() {
            return None;
        }
        let held = self.tree.get(version)?;
        let from = first_new(&self.news, held.window)?;
        let read = self.least_suppressed_from(
            version,
            from,
            held.first,
            held.position,
            &held.skipped,
        );
        if read.is_some() {
            return read;
        }
        let ticket = held.out?;
        let lent = lent_under(&self.tickets, ticket)?;
        self.least_suppressed_from(version, from, lent.first, lent.count, &lent.snapshot)
    }

    /// Takes note that no live version is in conflict, as its caller knows: what came home before is not looked at
    /// for conflicts again. The core is as before.
    pub fn note_calm(&mut self)
        requires { AreCalm self.old.plan self.old.machine }
        ensures { self.new ≡ self.old }
    {
        // The state is one to which steps lead: what a version read, and what is lent to it, is within its
        // window.
        law::every_schedule();
        self.news.clear();
    }

    /// The conflict of a live version: the least event that it read and did not skip, or that is lent to it
    /// and not in its ticket's snapshot, although the event is suppressed for it; None exactly where there is none.
    pub fn conflict(&self, version: u64) -> Result<Option<u32>, Memory>
        requires live { IsSome (version_at self.now.machine.versions version) }
        ensures { IfOk result
            (λ event. event ≡ conflict_at self.now.plan self.now.machine version) }
    {
        Ok(self.conflict_of(version))
    }

    // Whether a lease of a version would not be refused.
    fn is_ready(&self, version: u64) -> bool
        ensures { result ≡ is_none (refused self.now (s.Lease version 1)) }
    {
        self.lease_refusal(version).is_none()
    }

    /// The versions that `lease` would not refuse, by rising id.
    pub fn ready(&self, alloc: Global) -> Result<Vec<u64>, Memory>
        ensures { IfOk result
            (λ ids. ids.items ≡ ready_ids self.now.plan self.now.bound self.now.machine) }
    {
        let mut ids = self.tree.walk(alloc)?;
        ids.retain(|id| self.is_ready(*id));
        Ok(ids)
    }
}
