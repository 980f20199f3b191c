ghost use Rattle.std.specs.Prelude.{◌≡◌};
ghost use Rattle.sp_core.specs.declared.fault.CoreFault.TheVariants as f;

use crate::Memory;
use sp_group::Refusal;

/// Why a step was not done. Nothing has changed then.
#[derive(Drop)]
pub enum CoreFault {
    /// The machine refuses the step.
    Refused(Refusal),
    /// Want of memory.
    Memory,
}

impl From<Memory> for CoreFault {
    ghost from_gives = { λ _ fault. fault ≡ f.Memory };

    fn from(_: Memory) -> CoreFault {
        CoreFault::Memory
    }
}

impl From<Refusal> for CoreFault {
    ghost from_gives = { λ refusal fault. fault ≡ f.Refused refusal };

    fn from(refusal: Refusal) -> CoreFault {
        CoreFault::Refused(refusal)
    }
}
