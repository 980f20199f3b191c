ghost use Rattle.std.specs.Prelude.{◌≡◌, ◌+◌, ◌-◌, ◌^◌, ◌≤◌, false, None, Ok, length, min, IfOk, IsErr, OnOk};

use crate::{Failed, Sink, Source};
use std::io;
use std::io::{ErrorKind, Read};

// What a call of the system comes to: its value where it gave one, and else `Failed`, with one fault more.
fn counted<T>(answer: io::Result<T>, failed: &mut u64) -> Result<T, Failed>
    ensures value { IfOk answer (λ value. result ≡ Ok value) }
    ensures fault { IsErr answer → IsErr result }
    ensures same { OnOk answer (failed.new ≡ failed.old) }
    ensures never_falls { failed.old ≤ failed.new }
    ensures counted { IsErr answer → failed.new ≡ min (failed.old + 1) (2 ^ 64 - 1) }
{
    match answer {
        Ok(value) => Ok(value),
        Err(_) => {
            *failed = failed.saturating_add(1);
            Err(Failed)
        }
    }
}

// A read of standard input. Where a signal interrupts it, nothing was read, and it is tried again.
fn read_standard(runtime: &HostRuntime, into: &mut [u8]) -> io::Result<usize>
    ensures size { length into.new ≡ length into.old }
    ensures count { IfOk result (λ n. n ≤ length into.old) }
{
    for _ in 0..u64::MAX {
        match runtime.stdin().read(into) {
            Err(error) if error.kind() == ErrorKind::Interrupted => {}
            answer => return answer,
        }
    }
    Err(ErrorKind::Interrupted.into())
}

/// Standard input. It tells no bytes, only how often a read failed and whether the input has ended.
#[derive(Drop)]
pub struct StdSource {
    runtime: HostRuntime,
    failed: u64,
    ended: bool,
}

impl StdSource {
    ghost use Rattle.sp_io.specs.Standard.{source_state};

    /// Standard input, from where it stands.
    pub fn new(runtime: HostRuntime) -> StdSource
        ensures { source_state result ≡ record { left = None; faults = 0; ended = false } }
    {
        StdSource {
            runtime,
            failed: 0,
            ended: false,
        }
    }
}

impl Source for StdSource {
    ghost use Rattle.sp_io.specs.Standard.{source_state, used_up};

    ghost state = { source_state };

    ghost used_up = { used_up };

    fn read(&mut self, into: &mut [u8]) -> Result<usize, Failed> {
        let count = counted(read_standard(&self.runtime, into), &mut self.failed)?;
        if count == 0 {
            self.ended = true;
        }
        Ok(count)
    }
}

/// Standard output, or standard error. It tells only how often a write failed.
#[derive(Drop)]
pub struct StdSink {
    runtime: HostRuntime,
    error: bool,
    failed: u64,
}

impl StdSink {
    ghost use Rattle.sp_io.specs.Standard.{sink_state, is_error};

    /// Standard error where `error`, else standard output.
    pub fn new(runtime: HostRuntime, error: bool) -> StdSink
        ensures state { sink_state result ≡ record { held = None; faults = 0 } }
        ensures error { is_error result ≡ error }
    {
        StdSink {
            runtime,
            error,
            failed: 0,
        }
    }
}

impl Sink for StdSink {
    ghost use Rattle.sp_io.specs.Standard.{sink_state};

    ghost state = { sink_state };

    fn write_all(&mut self, piece: &[u8]) -> Result<(), Failed> {
        let written = if self.error {
            self.runtime.stderr().write_all(piece)
        } else {
            self.runtime.stdout().write_all(piece)
        };
        counted(written, &mut self.failed)
    }
}
