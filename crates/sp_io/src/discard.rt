ghost use Rattle.std.specs.Prelude.{◌≡◌, ◌≤◌, None};

use crate::{Failed, Sink};

/// A sink that keeps nothing of what is written to it. No call fails.
#[derive(Clone, Copy, Drop)]
pub struct Discard;

impl Sink for Discard {
    ghost use Rattle.sp_io.specs.Discard.{sink_state};

    ghost state = { sink_state };

    fn write_all(&mut self, _: &[u8]) -> Result<(), Failed> {
        Ok(())
    }
}
