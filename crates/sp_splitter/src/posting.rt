// Jobs are posted.
ghost use Rattle.std.specs.Prelude.{◌≡◌, ◌≤◌, ◌<◌, ◌+◌, ◌⊎◌, ℕ, length, [], false, IfErr, OnOk, if◌then◌else◌, is_ok};
ghost use Rattle.sp_hub.specs.Calls.{posts};
ghost use Rattle.sp_splitter.specs.Splitting.{IsBelowKept};

use crate::Memory;
use crate::unheard::Unheard;
use sp_hub::{Hub, Naming, Poster};
use sp_lend::{Lending, Loan, Reading};
use std::alloc::AllocError;
use std::collections::VecDeque;
use std::sync::Wait;

// Posts a job, and wakes an instance for it or not.
fn post_one<B: Lending + Send, L: Naming, R: Wait>(
    rt: &R,
    hub: &Hub<Loan<B>, Reading<B>, L>,
    by: &mut Poster<Reading<B>, L>,
    job: Loan<B>,
    wakes: bool,
) -> Result<(), Loan<B>>
    requires ticket { by.old.last < job.ticket }
    requires room { by.old.waiting < by.old.room }
    requires open { by.old.closed ≡ false }
    ensures by { by.new ≡ (if is_ok result then posts by.old job.ticket else by.old) }
    ensures back { IfErr result (λ back. back ≡ job) }
{
    if wakes {
        hub.post(rt, by, job)
    } else {
        hub.post_quietly(rt, by, job)
    }
}

/// Posts kept jobs, the oldest first, while the poster has room for them: a call for each job
/// that is kept no more. An instance is woken for each that is dear; of those that aren't, the first one the splitter is
/// to do itself, and for the others one is woken as their work adds up.
pub(crate) fn post_kept<B: Lending + Send, L: Naming, R: Wait>(
    rt: &R,
    hub: &Hub<Loan<B>, Reading<B>, L>,
    by: &mut Poster<Reading<B>, L>,
    kept: &mut VecDeque<Loan<B>>,
    unheard: &mut Unheard,
) -> Result<(), Memory>
    requires open { by.old.closed ≡ false }
    requires last { (high : ℕ) × IsBelowKept by.old.last kept.old.items high }
    ensures room { by.new.room ≡ by.old.room }
    ensures open { by.new.closed ≡ false }
    ensures got { by.new.got ≡ by.old.got }
    ensures each { OnOk result (by.new.calls + length kept.new.items
        ≡ by.old.calls + length kept.old.items) }
    ensures all { OnOk result ((kept.new.items ≡ []) ⊎ (by.new.room ≤ by.new.waiting)) }
    ensures last { OnOk result
        ((high : ℕ) → IsBelowKept by.old.last kept.old.items high
        → IsBelowKept by.new.last kept.new.items high) }
{
    let mut first = true;
    while by.waiting() < by.room() {
        let Some(job) = kept.pop_front() else {
            return Ok(());
        };
        let wakes = unheard.is_worth_waking(job.job(), first);
        first = false;
        if let Err(job) = post_one(rt, hub, by, job, wakes) {
            // There is room where it was.
            kept.push_front_reserved(job);
            return Err(AllocError);
        }
    }
    Ok(())
}
