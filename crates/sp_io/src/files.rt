ghost use Rattle.std.specs.Prelude.{◌≡◌, ℕ, ◌≤◌, List, length};
ghost use Rattle.sp_io.specs.Outside.{ToldFiles, HoldsFile, HoldsLonger, IfBytes, OnTooLong, OnFault, OnNoFault, Rose};

use std::alloc::{AllocError, Global};

/// What a load found.
#[derive(Debug, Drop)]
pub enum Loaded {
    /// All bytes of the file.
    Bytes(Vec<u8>),
    /// The file has more bytes than the limit.
    TooLong,
}

/// Why a load found nothing.
#[derive(Clone, Copy, Debug, Drop, PartialEq, Eq)]
pub enum LoadFault {
    /// The call failed, and its name's count of faults rose in it.
    Failed,
    /// Out of memory; no count rose.
    Memory,
}

impl From<AllocError> for LoadFault {
    ghost use Rattle.sp_io.specs.declared.files.LoadFault.TheVariants.{Memory};

    ghost from_gives = { λ _ e. e ≡ Memory };

    fn from(_: AllocError) -> LoadFault {
        LoadFault::Memory
    }
}

/// Files that are loaded by their names.
pub trait Files {
    /// What the files hold, where they tell it: names with their bytes.
    ghost held: { Self → ToldFiles };

    /// How often a load of this name has failed.
    ghost faults: { Self → List ℕ → ℕ };

    /// All bytes of the first file of this name, or `TooLong` exactly where these are more than
    /// `limit`. For a name that isn't there the call fails. The files stay as they are whatever the
    /// call answers, and only after `Failed` has a count of faults risen, that of this name.
    fn load(&mut self, alloc: Global, name: &str, limit: u32) -> Result<Loaded, LoadFault>
        ensures same { held self.new ≡ held self.old }
        ensures bytes { IfBytes result (HoldsFile (held self.old) name.now) }
        ensures within { IfBytes result (λ bytes. length bytes ≤ limit) }
        ensures too_long { OnTooLong result (HoldsLonger (held self.old) name.now limit) }

        ensures no_fault { OnNoFault result
            ((other : List ℕ) → faults self.new other ≡ faults self.old other) }
        ensures fault { OnFault result
            (Rose (faults self.old name.now) (faults self.new name.now)) }
        ensures never_falls { (other : List ℕ) → faults self.old other ≤ faults self.new other };
}
