ghost use Rattle.std.specs.Prelude.{◌≡◌, ◌+◌, ◌<◌, ◌≤◌, Some, length, take, true, false};
ghost use Rattle.sp_io.specs.Outside.{Gave, IsUsedUp};

use crate::{Failed, Source};

/// Bytes in memory, of which each call gives as many as it is asked for. No call fails.
#[derive(Drop)]
pub struct ByteSource {
    pub(crate) bytes: Vec<u8>,
    pub(crate) given: usize,
    pub(crate) ended: bool,
    ghost within: { given ≤ length bytes.items },
}

impl ByteSource {
    ghost use Rattle.sp_io.specs.ByteSource.{source_state};

    /// A source of these bytes, which are moved into it.
    pub fn new(bytes: Vec<u8>) -> ByteSource
        ensures { source_state result
            ≡ record { left = Some bytes.items; faults = 0; ended = false } }
    {
        ByteSource {
            bytes,
            given: 0,
            ended: false,
        }
    }

    // Gives the next bytes, at most so many, to the front of `into`.
    pub(crate) fn give(&mut self, into: &mut [u8], most: usize) -> usize
        requires some { 0 < most }
        requires room { most ≤ length into.old }
        ensures size { length into.new ≡ length into.old }
        ensures count { result ≤ most }
        ensures given { self.new.given ≡ self.old.given + result }
        ensures bytes { Gave (source_state self.old).left (take result into.new)
            (source_state self.new).left }
        ensures nothing_left { result ≡ 0 → IsUsedUp (source_state self.old).left }
        ensures ended { result ≡ 0 → (source_state self.new).ended ≡ true }
        ensures goes_on { 0 < result
            → (source_state self.new).ended ≡ (source_state self.old).ended }
    {
        if self.ended {
            return 0;
        }
        let count = most.min(self.bytes.len() - self.given);
        if count == 0 {
            self.ended = true;
            return 0;
        }
        let end = self.given + count;
        into[..count].copy_from_slice(&self.bytes[self.given..end]);
        self.given = end;
        count
    }
}

impl Source for ByteSource {
    ghost use Rattle.sp_io.specs.ByteSource.{source_state, used_up};

    ghost state = { source_state };

    ghost used_up = { used_up };

    fn read(&mut self, into: &mut [u8]) -> Result<usize, Failed> {
        let most = into.len();
        Ok(self.give(into, most))
    }
}
