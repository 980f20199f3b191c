ghost use Rattle.std.specs.Prelude.{◌≡◌, ◌||◌, ◌<◌, ◌≤◌, ◌+◌, pos, ◌≤ℤ◌, true, false, [], ◌∷◌, ◌++◌, ℕ, ℤ, List, length, slice_get, Ok, Some, None, IfSome, is_some, OnOk, OnErr};
ghost use Rattle.std.specs.List.{All};
ghost use Rattle.std.specs.Option.{ForSome};
ghost use Rattle.sp_base.specs.Limits.{number_limit};
ghost use Rattle.sp_plan.specs.declared.event.Event as came;
ghost use Rattle.sp_slack.specs.HeldBack.{before, is_before, is_late, is_up_to, least};

use crate::late::Offered;
use crate::waiting::Waiting;
use sp_plan::{Event, Memory};
use std::alloc::Global;

/// Holds events back until none that isn't late can come before them: up to so much of time. Contracts see
/// what it keeps, and for which events it stands.
#[derive(Drop)]
pub struct Slack {
    slack: i64,
    // The events that were not given.
    waiting: Waiting,
    offered: u32,
    late: u32,
    ended: bool,
    ghost least_slack: { pos 0 ≤ℤ slack },
    ghost most_slack: { slack ≤ℤ pos number_limit },
    ghost came: { waiting.came ≤ offered },
    ghost few: { offered ≤ 2097152 },
    ghost some_late: { late ≤ offered },
}

impl Slack {
    ghost use Rattle.sp_slack.specs.Standing.{kept_of, Stands, all_given};

    /// Nothing was offered yet. The slack is at most the greatest time. Takes no memory.
    pub fn new(alloc: Global, slack: i64) -> Slack
        requires low { pos 0 ≤ℤ slack }
        requires high { slack ≤ℤ pos number_limit }
        ensures stands { Stands (kept_of result) [] 0 }
        ensures slack { (kept_of result).slack ≡ slack }
        ensures none { (kept_of result).offered ≡ 0 }
        ensures no_late { (kept_of result).late ≡ 0 }
        ensures going { (kept_of result).ended ≡ false }
    {
        Slack {
            slack,
            waiting: Waiting::new(alloc),
            offered: 0,
            late: 0,
            ended: false,
        }
    }

    // The least time that may still come, where an event was kept.
    fn least(&self) -> Option<i64>
        ensures { result ≡ before (kept_of self.now).slack (kept_of self.now).greatest }
    {
        match self.waiting.greatest() {
            None => None,
            Some(greatest) => Some(greatest - self.slack),
        }
    }

    // That time, where this one is below it.
    fn missed(&self, now: i64) -> Option<i64>
        ensures least { IfSome result
            (λ end. Some end ≡ before (kept_of self.now).slack (kept_of self.now).greatest) }
        ensures late { (e : came.Event) → e.time ≡ now → is_some result
            ≡ is_before (before (kept_of self.now).slack (kept_of self.now).greatest) e }
    {
        match self.least() {
            Some(least) if now < least => Some(least),
            _ => None,
        }
    }

    /// Takes the next event of an input that has not ended. It is late, and not kept, exactly where its time is
    /// below the least that may still come: the greatest time that was kept, less the slack. Where none was kept
    /// none is late. Where memory runs out the event is lost, and all else is as before.
    pub fn offer(&mut self, event: Event) -> Result<Offered, Memory>
        requires low { pos 0 ≤ℤ event.time }
        requires high { event.time ≤ℤ pos number_limit }
        requires going { (kept_of self.old).ended ≡ false }
        requires few { (kept_of self.old).offered < 2097152 }
        ensures kept { (events : List came.Event) (given : ℕ)
            → Stands (kept_of self.old) events given → result ≡ Ok Offered.Kept
            → (is_late (kept_of self.old).slack events event ≡ false)
            × Stands (kept_of self.new) (events ++ event ∷ []) given }
        ensures late { (events : List came.Event) (given : ℕ)
            → Stands (kept_of self.old) events given
            → (now end : ℤ) → result ≡ Ok (Offered.Late now end)
            → (is_late (kept_of self.old).slack events event ≡ true) × (now ≡ event.time)
            × (Some end ≡ least (kept_of self.old).slack events) }
        ensures counts { result ≡ Ok Offered.Kept
            → (kept_of self.new).late ≡ (kept_of self.old).late }
        ensures passed { (now end : ℤ) → result ≡ Ok (Offered.Late now end) → kept_of self.new
            ≡ record (kept_of self.old)
            { offered = (kept_of self.old).offered + 1; late = (kept_of self.old).late + 1 } }
        ensures offered { OnOk result
            ((kept_of self.new).offered ≡ (kept_of self.old).offered + 1) }
        ensures slack { (kept_of self.new).slack ≡ (kept_of self.old).slack }
        ensures goes_on { (kept_of self.new).ended ≡ false }
        ensures err { OnErr result (kept_of self.new ≡ kept_of self.old) }
    {
        let now = event.time;
        if let Some(least) = self.missed(now) {
            self.offered += 1;
            self.late += 1;
            return Ok(Offered::Late { now, least });
        }
        self.waiting.add(event)?;
        self.offered += 1;
        Ok(Offered::Kept)
    }

    /// No more events come: all that are held are to be given.
    pub fn end(&mut self)
        ensures ended { kept_of self.new ≡ record (kept_of self.old) { ended = true } }
        ensures stands { (events : List came.Event) (given : ℕ)
            → Stands (kept_of self.old) events given → Stands (kept_of self.new) events given }
    {
        self.ended = true;
    }

    // Whether an event of this time is to be given while more may come.
    fn reaches(&self, time: i64) -> bool
        ensures { (e : came.Event) → e.time ≡ time → result
            ≡ is_up_to (before (kept_of self.now).slack (kept_of self.now).greatest) e }
    {
        match self.least() {
            None => false,
            Some(least) => time <= least,
        }
    }

    /// Gives the next of the events that are to be given, None exactly where all of them were.
    pub fn next(&mut self) -> Option<Event>
        ensures event { (events : List came.Event) (given : ℕ)
            → Stands (kept_of self.old) events given → (e : came.Event) → result ≡ Some e
            → (slice_get (all_given (kept_of self.old) events) given ≡ Some e)
            × Stands (kept_of self.new) events (given + 1) }
        ensures none { (events : List came.Event) (given : ℕ)
            → Stands (kept_of self.old) events given → result ≡ None
            → length (all_given (kept_of self.old) events) ≡ given }
        ensures still { result ≡ None → kept_of self.new ≡ kept_of self.old }
        ensures rest { kept_of self.new
            ≡ record (kept_of self.old) { held = (kept_of self.new).held } }
    {
        let first = self.waiting.first()?;
        if !self.ended && !self.reaches(first.time) {
            return None;
        }
        self.waiting.take(first)
    }

    /// How many of the events that were offered were late.
    pub fn late(&self) -> u32
        ensures { result ≡ (kept_of self.now).late }
    {
        self.late
    }
}
