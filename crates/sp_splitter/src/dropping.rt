// Jobs whose versions are gone are given back.
ghost use Rattle.std.specs.Prelude.{◌≡◌, ℕ, None, OnOk};
ghost use Rattle.sp_group.specs.Machine.{ticket_at, version_at};
ghost use Rattle.sp_group.specs.Steps.{IsSpreadOut};
ghost use Rattle.sp_spread.specs.Calm.{Settled};
ghost use Rattle.sp_spread.specs.Guessing.{AreGuessed};
ghost use Rattle.sp_splitter.specs.Breeding.{IsWide};
ghost use Rattle.sp_splitter.specs.Keeping.{Clears};
ghost use Rattle.sp_splitter.specs.Lending.{DropsStale};
ghost use Rattle.sp_splitter.specs.Splitting.{IsBelowKept};
ghost use Rattle.sp_splitter.specs.Stages.{Goes, NoneEmitted, NoneRead, Went};

use crate::{Memory, law};
use sp_core::Given;
use sp_lend::{Lender, Lending, Loan, Reading};
use std::alloc::{AllocError, Global};
use std::collections::VecDeque;

// Gives back, unread, a job whose version is gone.
#[tactic(auto, using(crate::proofs::Stepping::went_none))]
fn give_back_unread<B: Lending>(
    alloc: Global,
    core: &mut Lender<B>,
    job: Loan<B>,
) -> Result<(), Memory>
    requires gone { version_at core.old.machine.versions job.version ≡ None }
    ensures went { (n batch : ℕ) → Went n batch core.old core.new }
    ensures emitted { NoneEmitted core.old core.new }
    ensures read { NoneRead core.old core.new }
    ensures next { core.new.machine.next_ticket ≡ core.old.machine.next_ticket }
    ensures clears { OnOk result (Clears core.old core.new) }
    ensures ended { OnOk result (ticket_at core.new.machine.tickets job.ticket ≡ None) }
{
    law::known(core);
    let given = core.give_back(alloc, Reading::start(job))?;
    // No lease makes a job that differs.
    let differs = matches!(given, Given::Differs { .. });
    drop(given);
    if differs { Err(AllocError) } else { Ok(()) }
}

/// Gives back, unread, each kept job whose version is gone.
pub(crate) fn drop_stale<B: Lending>(
    alloc: Global,
    core: &mut Lender<B>,
    kept: &mut VecDeque<Loan<B>>,
) -> Result<(), Memory>
    requires settled { Settled core.old.plan core.old.machine }
    ensures went { (n batch : ℕ) → Went n batch core.old core.new }
    ensures goes { OnOk result ((n : ℕ) → Goes n core.old core.new) }
    ensures emitted { NoneEmitted core.old core.new }
    ensures read { NoneRead core.old core.new }
    ensures settled { OnOk result (Settled core.new.plan core.new.machine) }
    ensures guessed { OnOk result ((m share : ℕ → ℕ → ℕ)
        → AreGuessed core.old.plan core.old.machine m share
        → AreGuessed core.new.plan core.new.machine m share) }
    ensures wide { OnOk result
        ((share : ℕ → ℕ → ℕ) (n : ℕ) → IsWide share n core.old → IsWide share n core.new) }
    ensures spread_out { OnOk result ((n : ℕ)
        → IsSpreadOut core.old.plan core.old.bound n core.old.machine
        → IsSpreadOut core.new.plan core.new.bound n core.new.machine) }
    ensures dropped { OnOk result (DropsStale core.old core.new kept.old.items kept.new.items) }
    ensures rising { (last : ℕ) → IsBelowKept last kept.old.items core.old.machine.next_ticket
        → IsBelowKept last kept.new.items core.new.machine.next_ticket }
{
    let mut place = 0;
    while let Some(job) = kept.get(place) {
        if core.core().tree().get(job.job().version).is_some() {
            place += 1;
        } else if let Some(job) = kept.remove(place) {
            give_back_unread(alloc, core, job)?;
        }
    }
    Ok(())
}
