// Versions in conflict are rolled.
ghost use Rattle.std.specs.Prelude.{◌≡◌, ℕ, None, IfOk, IfSome, IsSorted, OnOk};
ghost use Rattle.sp_spread.specs.Calm.{AreCalm};
ghost use Rattle.sp_spread.specs.Laws.{LosesConflict};
ghost use Rattle.sp_splitter.specs.Rolling.{AreListed, IsCalm, IsOfWindow, Quiet, Rolls, RollsOne, place_cmp};
ghost use Rattle.sp_splitter.specs.Stages.{Goes, NoneEmitted, NoneRead, Went};

use crate::{Memory, law};
use sp_core::Core;
use sp_lend::{Lender, Lending};
use std::alloc::Global;

// The window of a version that is live and in conflict.
fn window_in_conflict(core: &Core, id: u64) -> Result<Option<u32>, Memory>
    ensures calm { IfOk result
        (λ window. window ≡ None → IsCalm core.now.plan core.now.machine id) }
    ensures window { IfOk result (λ window. IfSome window
        (λ number. IsOfWindow core.now.plan core.now.machine (number, id))) }
{
    let Some(held) = core.tree().get(id) else {
        return Ok(None);
    };
    let window = held.window;
    match core.conflict(id)? {
        Some(_) => Ok(Some(window)),
        None => Ok(None),
    }
}

// The live versions that are in conflict, each by its window and its id. Each is looked at once.
fn in_conflict(alloc: Global, core: &Core) -> Result<Vec<(u32, u64)>, Memory>
    ensures { IfOk result (λ found. AreListed core.now.plan core.now.machine found.items) }
{
    let mut found = Vec::new(alloc);
    let ids = core.tree().walk(alloc)?;
    for id in &ids {
        if let Some(window) = window_in_conflict(core, *id)? {
            found.push((window, *id))?;
        }
    }
    Ok(found)
}

// Rolls a version where it is live and in conflict.
fn roll_one<B: Lending>(core: &mut Lender<B>, id: u64)
    ensures quiet { Quiet core.old core.new }
    ensures loses { LosesConflict core.old.plan core.old.machine core.new.machine id }
    ensures one { RollsOne id core.old core.new }
{
    law::known(core);
    // A refusal changes nothing: the version went with one above it that was rolled, or is in no
    // conflict.
    let _ = core.roll(id);
}

// Rolls versions in the order in which they are listed.
fn roll_listed<B: Lending>(core: &mut Lender<B>, found: &[(u32, u64)])
    requires listed { AreListed core.old.plan core.old.machine found.now }
    requires sorted { IsSorted place_cmp found.now }
    ensures quiet { Quiet core.old core.new }
    ensures calm { AreCalm core.new.plan core.new.machine }
    ensures rolls { Rolls core.old core.new }
{
    for entry in found {
        roll_one(core, entry.1);
    }
}

/// Rolls every version that is in conflict, by window and then id.
pub(crate) fn roll_all<B: Lending>(alloc: Global, core: &mut Lender<B>) -> Result<(), Memory>
    ensures went { (n batch : ℕ) → Went n batch core.old core.new }
    ensures goes { OnOk result ((n : ℕ) → Goes n core.old core.new) }
    ensures emitted { NoneEmitted core.old core.new }
    ensures read { NoneRead core.old core.new }
    ensures calm { OnOk result (AreCalm core.new.plan core.new.machine) }
    ensures rolls { OnOk result (Rolls core.old core.new) }
{
    let mut found = in_conflict(alloc, core.core())?;
    // By window, and then by id.
    found.sort_unstable();
    roll_listed(core, &found);
    // So what came home by now is not looked at for conflicts again.
    core.note_calm();
    Ok(())
}
