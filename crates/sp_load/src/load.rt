// A file from its name.
ghost use Rattle.std.specs.Prelude.{◌≡◌, ◌≢◌, ◌≤◌, ℕ, List, length, IfOk, IfErr, Err};
ghost use Rattle.sp_io.specs.Outside.{HoldsFile, Rose};
ghost use Rattle.sp_load.specs.Places.{file};
ghost use Rattle.sp_load.specs.Loads.{RefusesLoad};

use crate::refusal::Refusal;
use sp_io::{Files, LoadFault, Loaded};
use std::alloc::Global;

/// All bytes of the file of this name, or why there are none: `Limited` where it has more bytes than the
/// limit, `Read` where it could not be loaded, or `Memory`.
pub fn load_file<F: Files>(
    alloc: Global,
    name: &str,
    limit: u32,
    files: &mut F,
) -> Result<Vec<u8>, Refusal>
    ensures holds { IfOk result (λ bytes. HoldsFile (F.held files.old) name.now bytes.items) }
    ensures within { IfOk result (λ bytes. length bytes.items ≤ limit) }
    ensures refused { IfErr result (RefusesLoad (F.held files.old) limit (file name.now)) }
    ensures held { F.held files.new ≡ F.held files.old }
    ensures fault { result ≡ Err Refusal.Read
        → Rose (F.faults files.old name.now) (F.faults files.new name.now) }
    ensures no_fault { result ≢ Err Refusal.Read → (other : List ℕ)
        → F.faults files.new other ≡ F.faults files.old other }
{
    match files.load(alloc, name, limit) {
        Ok(Loaded::Bytes(bytes)) => Ok(bytes),
        Ok(Loaded::TooLong) => Err(Refusal::Limited { limit }),
        Err(LoadFault::Failed) => Err(Refusal::Read),
        Err(LoadFault::Memory) => Err(Refusal::Memory),
    }
}
