ghost use Rattle.std.specs.Prelude.{◌≡◌};
ghost use Rattle.sp_sched.specs.declared.fault.SchedFault.TheVariants as f;

use crate::Memory;
use std::alloc::AllocFailed;

/// Why a text was not read as a schedule.
#[derive(Clone, Copy, Debug, Drop, PartialEq, Eq)]
pub enum SchedFault {
    /// The first line that is neither blank nor a step, by its number from 1.
    BadStep { line: u32 },
    /// Want of memory.
    Memory,
}

impl From<Memory> for SchedFault {
    ghost from_gives = { λ _ fault. fault ≡ f.Memory };

    fn from(_: Memory) -> SchedFault {
        SchedFault::Memory
    }
}

impl<T: Drop> From<AllocFailed<T>> for SchedFault {
    ghost from_gives = { λ _ fault. fault ≡ f.Memory };

    fn from(_: AllocFailed<T>) -> SchedFault {
        SchedFault::Memory
    }
}
