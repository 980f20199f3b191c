// A root is made where one can be.
ghost use Rattle.std.specs.Prelude.{ℕ, OnOk};
ghost use Rattle.sp_spread.specs.Calm.{AreCalm, NoneDone, Settled};
ghost use Rattle.sp_splitter.specs.Planting.{Plants};
ghost use Rattle.sp_splitter.specs.Stages.{Goes, NoneEmitted, NoneRead, Went};

use crate::{Memory, law};
use sp_core::CoreFault;
use sp_group::Label;
use sp_lend::{Lender, Lending};
use std::alloc::{AllocError, Global};

/// Makes the root of the next window where none is live and that window has begun.
#[tactic(auto, using(crate::proofs::Stepping::went_none))]
pub(crate) fn plant<B: Lending>(alloc: Global, core: &mut Lender<B>) -> Result<(), Memory>
    requires calm { AreCalm core.old.plan core.old.machine }
    requires undone { NoneDone core.old.machine }
    ensures went { (n batch : ℕ) → Went n batch core.old core.new }
    ensures goes { OnOk result ((n : ℕ) → Goes n core.old core.new) }
    ensures emitted { NoneEmitted core.old core.new }
    ensures read { NoneRead core.old core.new }
    ensures settled { OnOk result (Settled core.new.plan core.new.machine) }
    ensures plants { OnOk result (Plants core.old core.new) }
{
    law::known(core);
    match core.spawn(alloc, None, Label::empty(alloc)) {
        Ok(_) => Ok(()),
        // A root is live, or the next window has not begun.
        Err(CoreFault::Refused(_)) => Ok(()),
        Err(CoreFault::Memory) => Err(AllocError),
    }
}
