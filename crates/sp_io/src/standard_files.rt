ghost use Rattle.std.specs.Prelude.{◌≡◌, ◌≢◌, ℕ, ◌+◌, ◌-◌, ◌^◌, ◌<◌, ◌≤◌, List, None, Ok, Err, length, min, IfOk, IfErr};
ghost use Rattle.std.specs.IoError.{error_kind};
ghost use Rattle.sp_io.specs.Outside.{OnFault, OnNoFault};

use crate::{Files, LoadFault, Loaded};
use std::alloc::Global;
use std::fs::File;
use std::io;
use std::io::{ErrorKind, Read};

/// The files of the system, by their paths. They don't tell what they hold, only how often a load
/// failed, with one count for all names.
#[derive(Drop)]
pub struct StdFiles {
    runtime: HostRuntime,
    failed: u64,
}

impl StdFiles {
    ghost use Rattle.sp_io.specs.StandardFiles.{held_files, faults_of};

    /// The files that this runtime reaches. A load reads at most one byte past its limit.
    pub fn new(runtime: HostRuntime) -> StdFiles
        ensures held { held_files result ≡ None }
        ensures faults { (name : List ℕ) → faults_of result name ≡ 0 }
    {
        StdFiles { runtime, failed: 0 }
    }
}

impl Files for StdFiles {
    ghost use Rattle.sp_io.specs.StandardFiles.{held_files, faults_of};

    ghost held = { held_files };

    ghost faults = { faults_of };

    fn load(&mut self, alloc: Global, name: &str, limit: u32) -> Result<Loaded, LoadFault> {
        let read = front_of(&self.runtime, alloc, name, asked(limit));
        loaded(read, limit, &mut self.failed)
    }
}

// How many bytes of a file are asked for: one more than it may have, so that a longer one is told.
fn asked(limit: u32) -> u64
    ensures { result ≡ limit + 1 }
{
    u64::from(limit) + 1
}

// What a file comes to of which these are the bytes, or whose call failed. A fault that isn't want of memory is counted.
fn loaded(read: io::Result<Vec<u8>>, limit: u32, failed: &mut u64) -> Result<Loaded, LoadFault>
    ensures bytes { IfOk read
        (λ bytes. length bytes.items ≤ limit → result ≡ Ok (Loaded.Bytes bytes)) }
    ensures too_long { IfOk read
        (λ bytes. limit < length bytes.items → result ≡ Ok Loaded.TooLong) }
    ensures memory { IfErr read
        (λ error. error_kind error ≡ ErrorKind.OutOfMemory → result ≡ Err LoadFault.Memory) }
    ensures failed { IfErr read
        (λ error. error_kind error ≢ ErrorKind.OutOfMemory → result ≡ Err LoadFault.Failed) }
    ensures counted { OnFault result (failed.new ≡ min (failed.old + 1) (2 ^ 64 - 1)) }
    ensures never_falls { failed.old ≤ failed.new }
    ensures uncounted { OnNoFault result (failed.new ≡ failed.old) }
{
    match read {
        Ok(bytes) if bytes.len() > limit as usize => Ok(Loaded::TooLong),
        Ok(bytes) => Ok(Loaded::Bytes(bytes)),
        Err(error) if error.kind() == ErrorKind::OutOfMemory => Err(LoadFault::Memory),
        Err(_) => {
            *failed = failed.saturating_add(1);
            Err(LoadFault::Failed)
        }
    }
}

// The first bytes of the file at this path, at most so many.
fn front_of(runtime: &HostRuntime, alloc: Global, path: &str, most: u64) -> io::Result<Vec<u8>> {
    let mut bytes = Vec::new(alloc);
    File::open(runtime, path)?
        .take(most)
        .read_to_end(&mut bytes)?;
    Ok(bytes)
}
