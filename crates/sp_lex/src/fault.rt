// Why a text has no token in front.
ghost use Rattle.std.specs.Prelude.{◌≡◌};
ghost use Rattle.sp_lex.specs.Placed.{placed};

use crate::LexFault;
use std::alloc::AllocError;

// Why no token is in front of a text.
#[derive(Drop)]
pub(crate) enum Fault {
    BadCharacter,
    OpenText,
    LongNumber,
    Memory,
}

impl From<AllocError> for Fault {
    ghost use Rattle.sp_lex.specs.declared.fault.Fault.TheVariants.{Memory};

    ghost from_gives = { λ _ e. e ≡ Memory };

    fn from(_: AllocError) -> Fault {
        Fault::Memory
    }
}

impl Fault {
    // The fault of the text where this stands at a place of it.
    pub(crate) fn at(self, at: u32) -> LexFault
        ensures { result ≡ placed self at }
    {
        match self {
            Fault::BadCharacter => LexFault::BadCharacter { at },
            Fault::OpenText => LexFault::OpenText { at },
            Fault::LongNumber => LexFault::LongNumber { at },
            Fault::Memory => LexFault::Memory,
        }
    }
}
