ghost use Rattle.std.specs.Prelude.{◌≡◌, ◌⊎◌, ◌↔◌, ℕ, ◌+◌, ◌-◌, ◌<◌, ◌≤◌, ◌^◌, List, Some, None, length, min, Contains, IsTrue, IsErrOf, IsOkUnless};
ghost use Rattle.sp_io.specs.Outside.{HoldsFile, HoldsLonger, IfBytes, OnTooLong, OnFault, OnNoFault, Rose, first_file};
ghost use Rattle.sp_io.specs.MemoryFiles.{named_bytes};
ghost use Rattle.std.specs.Option.{option_map};

use crate::{Files, LoadFault, Loaded};
use std::alloc::Global;

/// Files in memory. Calls can be told to fail.
#[derive(Drop)]
pub struct MemFiles {
    files: Vec<(String, Vec<u8>)>,
    fails: Vec<u32>,
    calls: u64,
    failed: u64,
}

impl MemFiles {
    ghost use Rattle.sp_io.specs.MemoryFiles.{held_files, faults_of, told_faults, next_call};

    /// These files, each with its name; of two with one name the first counts. The calls with these
    /// numbers, from 1, fail, and so does each call for a name that isn't there. No other call fails,
    /// but for want of memory. One count of faults stands for all names.
    pub fn new(files: Vec<(String, Vec<u8>)>, fails: Vec<u32>) -> MemFiles
        ensures held { held_files result ≡ Some (named_bytes files.items) }
        ensures faults { (name : List ℕ) → faults_of result name ≡ 0 }
        ensures fails { told_faults result ≡ fails.items }
        ensures calls { next_call result ≡ 1 }
    {
        MemFiles {
            files,
            fails,
            calls: 0,
            failed: 0,
        }
    }
}

// Whether the call is told to fail.
fn is_told(fails: &[u32], call: u64) -> bool
    ensures { IsTrue result ↔ Contains fails.now call }
{
    fails.iter().any(|number| u64::from(*number) == call)
}

// The first file of this name.
fn first_of<'a>(files: &'a [(String, Vec<u8>)], name: &str) -> Option<&'a [u8]>
    ensures { option_map (λ bytes. bytes.now) result ≡ first_file (named_bytes files.now) name.now }
{
    files
        .iter()
        .find(|(file, _)| file.as_str() == name)
        .map(|(_, bytes)| bytes.as_slice())
}

impl Files for MemFiles {
    ghost use Rattle.sp_io.specs.MemoryFiles.{held_files, faults_of, told_faults, next_call, IsMissing};

    ghost held = { held_files };

    ghost faults = { faults_of };

    // The clauses up to `never_falls` are the trait's.
    fn load(&mut self, alloc: Global, name: &str, limit: u32) -> Result<Loaded, LoadFault>
        ensures same { held_files self.new ≡ held_files self.old }
        ensures bytes { IfBytes result (HoldsFile (held_files self.old) name.now) }
        ensures within { IfBytes result (λ bytes. length bytes ≤ limit) }
        ensures too_long { OnTooLong result (HoldsLonger (held_files self.old) name.now limit) }
        ensures no_fault { OnNoFault result
            ((other : List ℕ) → faults_of self.new other ≡ faults_of self.old other) }
        ensures fault { OnFault result
            (Rose (faults_of self.old name.now) (faults_of self.new name.now)) }
        ensures never_falls { (other : List ℕ)
            → faults_of self.old other ≤ faults_of self.new other }

        ensures fails { IsErrOf result LoadFault.Failed
            ↔ (Contains (told_faults self.old) (next_call self.old) ⊎ IsMissing self.old name.now) }
        ensures call { next_call self.new ≡ min (next_call self.old + 1) (2 ^ 64 - 1) }
        ensures told { told_faults self.new ≡ told_faults self.old }
    {
        self.calls = self.calls.saturating_add(1);
        if !is_told(&self.fails, self.calls) {
            if let Some(bytes) = first_of(&self.files, name) {
                return loaded(alloc, bytes, limit);
            }
        }
        self.failed = self.failed.saturating_add(1);
        Err(LoadFault::Failed)
    }
}

// What a load of a file with these bytes finds.
fn loaded(alloc: Global, bytes: &[u8], limit: u32) -> Result<Loaded, LoadFault>
    ensures bytes { IfBytes result (λ copied. copied ≡ bytes.now) }
    ensures within { IfBytes result (λ copied. length copied ≤ limit) }
    ensures too_long { OnTooLong result (limit < length bytes.now) }
    ensures memory { IsOkUnless result LoadFault.Memory }
{
    if bytes.len() > limit as usize {
        return Ok(Loaded::TooLong);
    }
    Ok(Loaded::Bytes(bytes.to_vec(alloc)?))
}
