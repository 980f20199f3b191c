ghost use Rattle.std.specs.Prelude.{◌≡◌, ℕ, ◌-◌, ◌<◌, ◌≤◌, ◌^◌, ◌↔◌, List, [], take, Some, None, Option, length, IfOk, IfSome, OnOk, OnErr, IsErr, true, false};
ghost use Rattle.sp_io.specs.Outside.{Gave, IsUsedUp, Rose};

use crate::{ByteSource, Failed, Source};

/// Bytes in memory, given in pieces. It can be made to fail once so many bytes were given.
#[derive(Drop)]
pub struct MemSource {
    inner: ByteSource,
    piece: u32,
    fail_after: Option<u64>,
    failed: u64,
    ghost gives: { 0 < piece },
}

impl MemSource {
    ghost use Rattle.std.specs.Prelude.{false};
    ghost use Rattle.sp_io.specs.MemorySource.{source_state, piece_of, until_fault};

    /// A source of these bytes. A call gives at most `piece` of them, at least 1; no call gives a
    /// byte past the first `fail_after`, and once these were given each call fails.
    pub fn new(bytes: Vec<u8>, piece: u32, fail_after: Option<u64>) -> MemSource
        requires { 0 < piece }
        ensures state { source_state result
            ≡ record { left = Some bytes.items; faults = 0; ended = false } }
        ensures piece { piece_of result ≡ piece }
        ensures fails { until_fault result ≡ fail_after }
    {
        MemSource {
            inner: ByteSource {
                bytes,
                given: 0,
                ended: false,
            },
            piece,
            fail_after,
            failed: 0,
        }
    }
}

impl Source for MemSource {
    ghost use Rattle.sp_io.specs.MemorySource.{source_state, used_up, piece_of, until_fault, less};

    ghost state = { source_state };

    ghost used_up = { used_up };

    // The first clauses, up to `never_falls`, are the trait's.
    fn read(&mut self, into: &mut [u8]) -> Result<usize, Failed>
        requires { 0 < length into.old }

        ensures size { length into.new ≡ length into.old }
        ensures count { IfOk result (λ n. n ≤ length into.old) }
        ensures bytes { IfOk result
            (λ n. Gave (source_state self.old).left (take n into.new)
            (source_state self.new).left) }
        ensures nothing_left { IfOk result (λ n. n ≡ 0 → IsUsedUp (source_state self.old).left) }
        ensures untaken { OnErr result
            (Gave (source_state self.old).left [] (source_state self.new).left) }
        ensures ended { IfOk result (λ n. n ≡ 0 → (source_state self.new).ended ≡ true) }
        ensures goes_on { IfOk result
            (λ n. 0 < n → (source_state self.new).ended ≡ (source_state self.old).ended) }
        ensures failed_before_end { OnErr result
            ((source_state self.new).ended ≡ (source_state self.old).ended) }
        ensures no_fault { OnOk result
            ((source_state self.new).faults ≡ (source_state self.old).faults) }
        ensures fault { OnErr result
            (Rose (source_state self.old).faults (source_state self.new).faults) }
        ensures never_falls { (source_state self.old).faults ≤ (source_state self.new).faults }

        ensures fails { IsErr result ↔ (until_fault self.old ≡ Some 0) }
        ensures at_most { IfOk result (λ n. n ≤ piece_of self.old) }
        ensures before_fault { IfOk result (λ n. IfSome (until_fault self.old) (λ k. n ≤ k)) }
        ensures piece { piece_of self.new ≡ piece_of self.old }
        ensures until_fault { IfOk result
            (λ n. until_fault self.new ≡ less (until_fault self.old) n) }
        ensures fault_stays { OnErr result (until_fault self.new ≡ until_fault self.old) }
    {
        let mut room = into.len().min(self.piece as usize);
        if let Some(limit) = self.fail_after {
            let given = self.inner.given as u64;
            if given >= limit {
                self.failed = self.failed.saturating_add(1);
                return Err(Failed);
            }
            room = room.min((limit - given) as usize);
        }
        Ok(self.inner.give(into, room))
    }
}
