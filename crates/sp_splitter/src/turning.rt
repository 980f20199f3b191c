// The two halves of a turn, behind the gathering.
ghost use Rattle.std.specs.Prelude.{◌≡◌, ◌≤◌, ◌++◌, ℕ, IfOk, OnOk};
ghost use Rattle.sp_base.specs.Limits.{batch_limit};
ghost use Rattle.sp_chance.specs.Shares.{share_of};
ghost use Rattle.sp_group.specs.Steps.{IsLentOut};
ghost use Rattle.sp_spread.specs.Calm.{Settled};
ghost use Rattle.sp_spread.specs.Guessing.{AreGuessed};
ghost use Rattle.sp_splitter.specs.Breeding.{IsWide};
ghost use Rattle.sp_splitter.specs.Splitting.{IsBelowKept};
ghost use Rattle.sp_splitter.specs.Stages.{Goes, NoneEmitted, NoneRead, Went, matches_of};
ghost use Rattle.sp_splitter.specs.Turning.{SentOut, TidiedUp};

use crate::Memory;
use crate::breeding::breed;
use crate::dropping::drop_stale;
use crate::finishing::finish_all;
use crate::guessing::guess;
use crate::lending::{Asking, lend};
use crate::planting::plant;
use crate::rolling::roll_all;
use sp_chance::{Chances, Predictor};
use sp_core::Emitted;
use sp_lend::{Lender, Lending, Loan};
use std::alloc::Global;
use std::collections::VecDeque;

/// Rolls versions in conflict, finishes windows, and makes a root where none is live. Answers what each window
/// emits.
pub(crate) fn tidy<B: Lending>(alloc: Global, core: &mut Lender<B>) -> Result<Vec<Emitted>, Memory>
    ensures went { (n batch : ℕ) → Went n batch core.old core.new }
    ensures goes { OnOk result ((n : ℕ) → Goes n core.old core.new) }
    ensures emitted { IfOk result (λ all. core.new.machine.emitted
        ≡ core.old.machine.emitted ++ matches_of all.items) }
    ensures read { NoneRead core.old core.new }
    ensures settled { OnOk result (Settled core.new.plan core.new.machine) }
    ensures tidied { IfOk result (λ all. TidiedUp core.old core.new all.items) }
{
    roll_all(alloc, core)?;
    let finished = finish_all(alloc, core)?;
    plant(alloc, core)?;
    Ok(finished)
}

// Makes children, gives back jobs whose versions are gone, and leases what is ready.
fn send_out<B: Lending>(
    alloc: Global,
    core: &mut Lender<B>,
    chances: &Chances,
    instances: u32,
    asking: Asking,
    kept: &mut VecDeque<Loan<B>>,
) -> Result<(), Memory>
    requires instances { instances ≤ 16 }
    requires some { 1 ≤ asking.most }
    requires most { asking.most ≤ batch_limit }
    requires settled { Settled core.old.plan core.old.machine }
    ensures went { Went instances asking.most core.old core.new }
    ensures goes { OnOk result (Goes instances core.old core.new) }
    ensures emitted { NoneEmitted core.old core.new }
    ensures read { NoneRead core.old core.new }
    ensures settled { OnOk result (Settled core.new.plan core.new.machine) }
    ensures guessed { OnOk result ((m : ℕ → ℕ → ℕ)
        → AreGuessed core.old.plan core.old.machine m (share_of chances.now)
        → AreGuessed core.new.plan core.new.machine m (share_of chances.now)) }
    ensures wide { OnOk result (IsWide (share_of chances.now) instances core.new) }
    ensures lent { OnOk result (IsLentOut core.new.plan core.new.bound instances core.new.machine) }
    ensures sent { OnOk result (SentOut (share_of chances.now) instances asking.most
        core.old core.new kept.old.items kept.new.items) }
    ensures rising { (last : ℕ) → IsBelowKept last kept.old.items core.old.machine.next_ticket
        → IsBelowKept last kept.new.items core.new.machine.next_ticket }
{
    breed(alloc, core, chances, instances)?;
    drop_stale(alloc, core, kept)?;
    lend(alloc, core, chances, instances, asking, kept)?;
    Ok(())
}

/// Asks the predictor for the chances of open groups, and sends work out by them. Answers the chances.
pub(crate) fn guess_and_send<B: Lending>(
    alloc: Global,
    core: &mut Lender<B>,
    predictor: &dyn Predictor,
    instances: u32,
    asking: Asking,
    kept: &mut VecDeque<Loan<B>>,
) -> Result<Chances, Memory>
    requires instances { instances ≤ 16 }
    requires some { 1 ≤ asking.most }
    requires most { asking.most ≤ batch_limit }
    requires settled { Settled core.old.plan core.old.machine }
    ensures went { Went instances asking.most core.old core.new }
    ensures goes { OnOk result (Goes instances core.old core.new) }
    ensures emitted { NoneEmitted core.old core.new }
    ensures read { NoneRead core.old core.new }
    ensures settled { OnOk result (Settled core.new.plan core.new.machine) }
    ensures guessed { IfOk result (λ chances. AreGuessed core.new.plan core.new.machine
        (means predictor.now) (share_of chances)) }
    ensures wide { IfOk result (λ chances. IsWide (share_of chances) instances core.new) }
    ensures lent { OnOk result (IsLentOut core.new.plan core.new.bound instances core.new.machine) }
    ensures sent { IfOk result (λ chances. SentOut (share_of chances) instances asking.most
        core.old core.new kept.old.items kept.new.items) }
    ensures rising { (last : ℕ) → IsBelowKept last kept.old.items core.old.machine.next_ticket
        → IsBelowKept last kept.new.items core.new.machine.next_ticket }
{
    let chances = guess(alloc, core.core(), predictor)?;
    send_out(alloc, core, &chances, instances, asking, kept)?;
    Ok(chances)
}
