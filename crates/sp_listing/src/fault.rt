ghost use Rattle.std.specs.Prelude.{◌≡◌};
ghost use Rattle.sp_listing.specs.declared.fault.ListFault.TheVariants as f;

use sp_plan::Memory;
use std::alloc::AllocFailed;

/// Why a text was not read as a listing.
#[derive(Clone, Copy, Debug, Drop, PartialEq, Eq)]
pub enum ListFault {
    /// The first line that is neither that of a window nor that of a match behind one, by its number from 1.
    BadLine { line: u32 },
    /// Want of memory.
    Memory,
}

impl From<Memory> for ListFault {
    ghost from_gives = { λ _ fault. fault ≡ f.Memory };

    fn from(_: Memory) -> ListFault {
        ListFault::Memory
    }
}

impl<T: Drop> From<AllocFailed<T>> for ListFault {
    ghost from_gives = { λ _ fault. fault ≡ f.Memory };

    fn from(_: AllocFailed<T>) -> ListFault {
        ListFault::Memory
    }
}
