// Readings that are kept, for jobs that lend the same once more.
ghost use Rattle.std.specs.Prelude.{◌≡◌, IsTrue, IfOk, IfSome};
ghost use Rattle.std.specs.Option.{option_map};
ghost use Rattle.sp_plan.specs.Same.{SamePlan};
ghost use Rattle.sp_piece.specs.Keeping.{IsKept};
ghost use Rattle.sp_piece.specs.Done.{LendsAs, LendsSame, under, whole};

use crate::law::same_plans_read_alike;
use crate::telling::Telling;
use crate::{Job, Memory};
use sp_base::Numbers;
use sp_match::Matcher;
use sp_plan::{Event, Listed};
use sp_share::Shared;
use std::alloc::Global;
use std::marker::Model;

/// A whole reading that is kept: what its job lent, where that led, and what was told of it. A job that lends the same,
/// by a plan that is the same but for where its parts lie in memory, is read by taking it up. Contracts see what was
/// lent.
#[derive(Drop)]
pub struct Done {
    pub(crate) before: Shared,
    pub(crate) events: Listed<Event>,
    pub(crate) first: u32,
    pub(crate) snapshot: Numbers,
    pub(crate) closes: bool,
    // where the reading led to; none where nothing changed the matcher
    pub(crate) after: Option<Matcher>,
    // what was told of it
    pub(crate) telling: Telling,
}

impl Model for Done {
    ghost use Rattle.sp_piece.specs.Done.{Lent};

    ghost Value = { Lent };

    ghost use Rattle.sp_plan.specs.contracts.plan.Expr as expr;
    ghost use Rattle.sp_plan.specs.contracts.plan.Pred as pred;
    ghost use Rattle.std.specs.Coded.{codes};

    ghost coded = { Prim.hlevel (codes, expr.the_row.coded, pred.the_row.coded) };

    ghost use Rattle.sp_piece.specs.Done.{IsDone};

    ghost view = { λ d. record {
      before = d.before;
      events = d.events;
      first = d.first;
      snapshot = d.snapshot.list;
      closes = d.closes;
    } };

    ghost invariant = { λ d. IsDone (record {
      before = d.before;
      events = d.events;
      first = d.first;
      snapshot = d.snapshot.list;
      closes = d.closes;
    }) d.after d.telling.entries };
}

// The matcher after a reading, under the plan of the matcher before another reading of the same.
fn matcher_under(
    alloc: Global,
    after: &Option<Matcher>,
    host: &Matcher,
) -> Result<Option<Matcher>, Memory>
    requires { IfSome after.now (λ m. SamePlan m.plan host.now.plan) }
    ensures { IfOk result
        (λ matcher. matcher ≡ option_map (under host.now.plan) after.now) }
{
    match after {
        Some(after) => Ok(Some(after.copy_under(alloc, host)?)),
        None => Ok(None),
    }
}

impl Done {
    /// Whether as many events were lent as the job lends, from the same number on, with the same ones to be skipped,
    /// and the closing where the job lends it. Costs little: neither events nor matchers are compared.
    pub fn lends_as(&self, job: &Job) -> bool
        ensures { IsTrue result → LendsAs self.now job.now }
    {
        self.first == job.first
            && self.closes == job.closes
            && self.events.as_slice().len() == job.events.as_slice().len()
            && self.snapshot.list() == job.snapshot.list()
    }

    /// Whether the job lends the same: the same events, with the same ones to be skipped, from the same runs, by a plan
    /// that is the same but for where its parts lie in memory.
    pub(crate) fn lends_same(&self, job: &Job) -> bool
        ensures { IsTrue result → LendsSame self.now job.now }
    {
        self.lends_as(job)
            && Event::all_same(self.events.as_slice(), job.events.as_slice())
            && self.before.get().same(job.before.get())
    }

    /// Where a job that lends the same leads, and what is told of it.
    pub(crate) fn led(&self, alloc: Global, job: &Job) -> Result<(Option<Matcher>, Telling), Memory>
        requires { LendsSame self.now job.now }
        ensures { IfOk result (λ led. IsKept (whole job.now) led.0 led.1.entries) }
    {
        same_plans_read_alike();
        let matcher = matcher_under(alloc, &self.after, job.before.get())?;
        Ok((matcher, self.telling.copy(alloc)?))
    }
}
