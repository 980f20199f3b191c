ghost use Rattle.std.specs.Prelude.{◌≡◌, ℕ, ◌+◌, ◌-◌, ◌<◌, ◌≤◌, ◌^◌, ◌↔◌, List, [], ◌++◌, Some, None, length, take, find, IfOk, OnOk, OnErr, IsOk, IsErr, IsSome, min, vec_len, vec_capacity};
ghost use Rattle.sp_io.specs.Outside.{Grew, GrewWithin, Rose};
ghost use Rattle.sp_io.specs.ToldFaults;

use crate::{Failed, Sink};
use std::alloc::{AllocError, Global};

/// What is written, in memory. Its room is taken once, and calls can be told to fail.
#[derive(Drop)]
pub struct MemSink {
    bytes: Vec<u8>,
    room: usize,
    fails: Vec<(u32, u32)>,
    calls: u64,
    failed: u64,
    ghost has_room: { vec_len bytes + room ≤ vec_capacity bytes },
}

impl MemSink {
    ghost use Rattle.sp_io.specs.MemorySink.{sink_state, free_room, told_faults, next_call};

    /// An empty sink with room for so many bytes. For a pair `(n, k)` call number `n`, from 1, appends
    /// only the first `k` bytes of its piece, or all where it has fewer, and fails; of two pairs for
    /// one call the first counts. A call that would append more than the free room appends what fits
    /// and fails. No other call fails.
    pub fn new(alloc: Global, fails: Vec<(u32, u32)>, room: u32) -> Result<MemSink, AllocError>
        ensures state { IfOk result
            (λ sink. sink_state sink ≡ record { held = Some []; faults = 0 }) }
        ensures room { IfOk result (λ sink. free_room sink ≡ room) }
        ensures fails { IfOk result (λ sink. told_faults sink ≡ fails.items) }
        ensures calls { IfOk result (λ sink. next_call sink ≡ 1) }
    {
        Ok(MemSink {
            bytes: Vec::with_capacity(alloc, room as usize)?,
            room: room as usize,
            fails,
            calls: 0,
            failed: 0,
        })
    }

    /// What it holds.
    pub fn bytes(&self) -> &[u8]
        ensures { (sink_state self.now).held ≡ Some result.now }
    {
        &self.bytes
    }
}

// How many bytes of its piece the call keeps before it is to fail, if it is to.
fn kept_at(fails: &[(u32, u32)], call: u64) -> Option<u32>
    ensures { result ≡ ToldFaults.kept_at fails.now call }
{
    fails
        .iter()
        .find(|(number, _)| u64::from(*number) == call)
        .map(|(_, kept)| *kept)
}

impl Sink for MemSink {
    ghost use Rattle.sp_io.specs.MemorySink.{sink_state, free_room, told_faults, next_call, kept_front};
    ghost use Rattle.sp_io.specs.ToldFaults.{kept_at};

    ghost state = { sink_state };

    // The first five clauses are the trait's.
    fn write_all(&mut self, piece: &[u8]) -> Result<(), Failed>
        ensures ok { OnOk result
            (Grew (sink_state self.old).held piece.now (sink_state self.new).held) }
        ensures err { OnErr result
            (GrewWithin (sink_state self.old).held piece.now (sink_state self.new).held) }
        ensures no_fault { OnOk result
            ((sink_state self.new).faults ≡ (sink_state self.old).faults) }
        ensures fault { OnErr result
            (Rose (sink_state self.old).faults (sink_state self.new).faults) }
        ensures never_falls { (sink_state self.old).faults ≤ (sink_state self.new).faults }

        ensures keeps { Grew (sink_state self.old).held (kept_front self.old piece.now)
            (sink_state self.new).held }
        ensures succeeds { kept_at (told_faults self.old) (next_call self.old) ≡ None
            → length piece.now ≤ free_room self.old → IsOk result }
        ensures told { IsSome (kept_at (told_faults self.old) (next_call self.old)) → IsErr result }
        ensures room { free_room self.new + length (kept_front self.old piece.now)
            ≡ free_room self.old }
        ensures call { next_call self.new ≡ min (next_call self.old + 1) (2 ^ 64 - 1) }
        ensures fails { told_faults self.new ≡ told_faults self.old }
    {
        self.calls = self.calls.saturating_add(1);
        let told = kept_at(&self.fails, self.calls);
        let wanted = match told {
            Some(kept) => piece.len().min(kept as usize),
            None => piece.len(),
        };
        let kept = wanted.min(self.room);
        self.bytes.extend_from_slice(&piece[..kept]).unwrap();
        self.room -= kept;
        if told.is_none() && kept == piece.len() {
            return Ok(());
        }
        self.failed = self.failed.saturating_add(1);
        Err(Failed)
    }
}
