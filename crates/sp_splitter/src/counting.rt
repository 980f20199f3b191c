// How many versions are out or ready.
ghost use Rattle.std.specs.Prelude.{◌≡◌, IfOk};
ghost use Rattle.sp_group.specs.Steps.{out_count};
ghost use Rattle.sp_spread.specs.Counting.{busy_count};

use crate::{Memory, law};
use sp_core::Core;
use std::alloc::Global;

/// How many live versions have a ticket out.
pub(crate) fn count_out(alloc: Global, core: &Core) -> Result<u32, Memory>
    ensures { IfOk result (λ out. out ≡ out_count core.now.machine) }
{
    law::known_of(core);
    let tree = core.tree();
    tree.live();
    let mut out = 0u32;
    let ids = tree.walk(alloc)?;
    for id in &ids {
        if let Some(held) = tree.get(*id)
            && held.out.is_some()
        {
            out += 1;
        }
    }
    Ok(out)
}

/// How many versions are out or ready.
pub(crate) fn count_busy(alloc: Global, core: &Core) -> Result<usize, Memory>
    ensures { IfOk result (λ busy.
        busy ≡ busy_count core.now.plan core.now.bound core.now.machine) }
{
    // They tell that a version is out or ready, never both, and that few are live.
    law::known_of(core);
    core.tree().live();
    let out = count_out(alloc, core)? as usize;
    let ready = core.ready(alloc)?.len();
    Ok(out + ready)
}
