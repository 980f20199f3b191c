// Jobs that are like others but for one thing.
ghost use Rattle.std.specs.Prelude.{◌≡◌, ◌∷◌, [], IfOk};
ghost use Rattle.sp_match.specs.declared.known.Known.TheVariants.{Any};
ghost use Rattle.sp_piece.specs.Lending.{IsLendable};
ghost use Rattle.sp_piece.specs.Reading.{consumes};

use sp_match::{Known, Matcher};
use sp_piece::Job;
use sp_plan::{Event, Listed};
use sp_share::{Held, Shared, Spares};
use std::alloc::{AllocError, Global};

// A handle of a matcher.
fn handle_of(alloc: Global, matcher: Matcher) -> Result<Shared, AllocError>
    ensures { IfOk result (λ shared. shared ≡ matcher) }
{
    let mut spares = Spares::new(alloc)?;
    let mut held = Held::new(matcher);
    let handle = held.lend(alloc, &mut spares);
    drop(held);
    drop(spares);
    Ok(handle?)
}

// The job with this matcher and one event.
fn with(alloc: Global, job: &Job, before: Shared, event: Event) -> Result<Job, AllocError>
    requires lendable { IsLendable before (event ∷ []) (Any ∷ []) job.now.first }
    requires wants { job.now.wants ≡ consumes before.plan }
{
    let events = vec![in alloc; event]?;
    let known = vec![in alloc; Known::Any]?;
    let snapshot = job.snapshot.copy(alloc)?;
    Ok(Job {
        ticket: job.ticket,
        version: job.version,
        first: job.first,
        before,
        events: Listed::of(events),
        known: Listed::of(known),
        snapshot,
        closes: job.closes,
        wants: job.wants,
    })
}

/// A job of one event once more, at time 0 in place of a later one. None of a job without events, and where the
/// first is at time 0.
pub(crate) fn with_other_event(alloc: Global, job: &Job) -> Result<Option<Job>, AllocError> {
    let Some(event) = job.events.as_slice().first() else {
        return Ok(None);
    };
    if event.time == 0 {
        return Ok(None);
    }
    let other = Event {
        time: 0,
        values: event.values.copy(alloc)?,
    };
    let before = handle_of(alloc, job.before.get().copy(alloc)?)?;
    Ok(Some(with(alloc, job, before, other)?))
}

/// A job of one event once more, with a matcher that has no run. None of a job without events.
pub(crate) fn with_other_matcher(alloc: Global, job: &Job) -> Result<Option<Job>, AllocError> {
    let Some(event) = job.events.as_slice().first() else {
        return Ok(None);
    };
    let mut before = job.before.get().copy(alloc)?;
    before.clear();
    Ok(Some(with(alloc, job, handle_of(alloc, before)?, event.copy(alloc)?)?))
}
