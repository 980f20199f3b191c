// What the open runs want, as it is kept from one event to the next.
ghost use Rattle.std.specs.Prelude.{◌≡◌, ◌≤◌, ◌&&◌, false, List, [], length, take, IsFalse, OnOk};
ghost use Rattle.std.specs.List.{All};
ghost use Rattle.sp_plan.specs.declared.plan.Plan.{Plan};
ghost use Rattle.sp_plan.specs.Compiled.{IsCompiled};
ghost use Rattle.sp_match.specs.inside.Kept.{Kept, all_kept};
ghost use Rattle.sp_match.specs.inside.Good.{Good};
ghost use Rattle.sp_match.specs.inside.Wanted.{AreLeft, HaveWanted, all_as_before, all_left, befores, wanted_all};

use crate::Memory;
use crate::run::Run;
use crate::wanting::{want_after, want_as_before};
use sp_plan::Plan;
use sp_wants::Wants;
use std::alloc::Global;

/// What the open runs want where an event changes nothing: as many events after it as before it. It is so of the runs
/// where it is fresh.
#[derive(Drop)]
pub(crate) struct Lefts {
    pub(crate) is_fresh: bool,
    pub(crate) wants: Wants,
}

// The same as others, in the room of these.
fn copy_wants(wants: &mut Wants, others: &Wants) -> Result<(), Memory>
    ensures { OnOk result (wants.new ≡ others.now) }
{
    wants.clear();
    wants.extend_times(others, 1)
}

impl Lefts {
    // Nothing is kept. Takes no memory.
    pub(crate) fn new(alloc: Global) -> Lefts
        ensures { result.is_fresh ≡ false }
    {
        Lefts {
            is_fresh: false,
            wants: Wants::new(alloc),
        }
    }

    // What is kept isn't so any more.
    pub(crate) fn forget(&mut self)
        ensures { self.new.is_fresh ≡ false }
    {
        self.is_fresh = false;
    }

    // What is kept is what another keeps, where that is fresh: else, and after want of memory, it isn't so any more.
    pub(crate) fn copy_from(&mut self, other: &Lefts)
        ensures { (q : Plan) (ks : List Kept) → AreLeft q ks other.now → AreLeft q ks self.new }
    {
        self.is_fresh = other.is_fresh && copy_wants(&mut self.wants, &other.wants).is_ok();
    }

    // What is kept is fresh from now on.
    pub(crate) fn refresh(&mut self, plan: &Plan, runs: &[Run]) -> Result<(), Memory>
        requires compiled { IsCompiled plan.now }
        requires good { All (Good plan.now) (all_kept runs.now) }
        requires left { AreLeft plan.now (all_kept runs.now) self.old }
        ensures { OnOk result (self.new.wants ≡ all_as_before plan.now (all_kept runs.now)) }
    {
        if self.is_fresh {
            return Ok(());
        }
        self.wants.clear();
        want_as_before(plan, runs, &mut self.wants)?;
        self.is_fresh = true;
        Ok(())
    }

    // An event was handled, when so many runs were open, which want this now: what is kept stays fresh where they want what
    // they wanted, and follows those that the event began.
    fn follow(&mut self, plan: &Plan, runs: &[Run], count: usize, wanted: &Wants)
        requires compiled { IsCompiled plan.now }
        requires good { All (Good plan.now) (all_kept runs.now) }
        requires within { count ≤ length runs.now }
        requires was { (old : List Kept) × (length old ≡ count)
            × (self.old.wants ≡ all_as_before plan.now old) }
        requires wanted { wanted.now ≡ wanted_all plan.now (befores self.old.wants)
            (take count (all_kept runs.now)) }
        ensures { AreLeft plan.now (all_kept runs.now) self.new }
    {
        self.is_fresh = wanted.same(&self.wants)
            && want_as_before(plan, &runs[count..], &mut self.wants).is_ok();
    }

    // Tells what the runs want that were open when an event came, so many, and what they wanted before it. What is kept
    // follows them. The list is empty before.
    pub(crate) fn tell(
        &mut self,
        plan: &Plan,
        runs: &[Run],
        count: usize,
        quiet: bool,
        wanted: &mut Wants,
    ) -> Result<(), Memory>
        requires compiled { IsCompiled plan.now }
        requires good { All (Good plan.now) (all_kept runs.now) }
        requires none { wanted.old ≡ [] }
        requires was { (old : List Kept)
            × HaveWanted plan.now count self.old.wants quiet old (all_kept runs.now) }
        ensures told { OnOk result ((old : List Kept)
            → HaveWanted plan.now count self.old.wants quiet old (all_kept runs.now)
            → wanted.new ≡ wanted_all plan.now (all_left plan.now old)
            (take count (all_kept runs.now))) }
        ensures left { OnOk result (AreLeft plan.now (all_kept runs.now) self.new) }
    {
        if quiet {
            return wanted.extend_times(&self.wants, 1);
        }
        want_after(plan, &self.wants, runs, wanted)?;
        self.follow(plan, runs, count, wanted);
        Ok(())
    }

    // The event is over: what is kept stays fresh where all runs stayed. Where nothing is kept, since it isn't WANTED, nothing
    // is done.
    #[inline(always)]
    pub(crate) fn outlive<const WANTED: bool>(&mut self, all_stayed: bool)
        requires { IsFalse WANTED → self.old.is_fresh ≡ false }
        ensures fresh { self.new.is_fresh ≡ (self.old.is_fresh && all_stayed) }
        ensures wants { self.new.wants ≡ self.old.wants }
    {
        if WANTED {
            self.is_fresh = self.is_fresh && all_stayed;
        }
    }
}
