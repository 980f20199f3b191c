// Why no phrase is read from tokens.
ghost use Rattle.std.specs.Prelude.{◌≡◌};

use std::alloc::AllocError;

/// Why nothing was read: the number is how many tokens are left, that which doesn't fit among them.
#[derive(Drop)]
pub enum Stop {
    Memory,
    Unexpected(usize),
    TooDeep(usize),
}

impl From<AllocError> for Stop {
    ghost use Rattle.sp_parse.specs.declared.stop.Stop.TheVariants.{Memory};

    ghost from_gives = { λ _ e. e ≡ Memory };

    fn from(_: AllocError) -> Stop {
        Stop::Memory
    }
}
