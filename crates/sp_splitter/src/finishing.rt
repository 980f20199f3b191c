// Windows are finished.
ghost use Rattle.std.specs.Prelude.{◌≡◌, ℕ, ◌++◌, None, IfOk, OnOk, is_none};
ghost use Rattle.sp_group.specs.declared.step.Step.TheVariants as s;
ghost use Rattle.sp_core.specs.Running.{refused};
ghost use Rattle.sp_spread.specs.Calm.{AreCalm, NoneDone};
ghost use Rattle.sp_splitter.specs.Finishing.{FinishedOne, Finishes};
ghost use Rattle.sp_splitter.specs.Stages.{Goes, NoneRead, Went, matches_of};

use crate::{Memory, law};
use sp_core::{Core, Emitted};
use sp_lend::{Lender, Lending};
use std::alloc::{AllocError, Global};

// Whether there is a root that is done.
fn is_root_done(core: &Core) -> bool
    ensures { result ≡ is_none (refused core.now s.Finish) }
{
    let tree = core.tree();
    let Some(root) = tree.root() else {
        return false;
    };
    let Some(held) = tree.get(root) else {
        return false;
    };
    held.done
}

// Finishes the root, which is done.
fn finish_root<B: Lending>(core: &mut Lender<B>) -> Emitted
    requires calm { AreCalm core.old.plan core.old.machine }
    requires done { refused core.old s.Finish ≡ None }
    ensures { FinishedOne core.old core.new result }
{
    law::known(core);
    let Ok(emitted) = core.finish() else {
        unreachable!()
    };
    emitted
}

/// Finishes windows while the root is done, and answers what each of them emits.
pub(crate) fn finish_all<B: Lending>(
    alloc: Global,
    core: &mut Lender<B>,
) -> Result<Vec<Emitted>, Memory>
    requires calm { AreCalm core.old.plan core.old.machine }
    ensures went { (n batch : ℕ) → Went n batch core.old core.new }
    ensures goes { OnOk result ((n : ℕ) → Goes n core.old core.new) }
    ensures emitted { IfOk result
        (λ all. core.new.machine.emitted ≡ core.old.machine.emitted ++ matches_of all.items) }
    ensures read { NoneRead core.old core.new }
    ensures calm { OnOk result (AreCalm core.new.plan core.new.machine) }
    ensures undone { OnOk result (NoneDone core.new.machine) }
    ensures finishes { IfOk result (λ all. Finishes core.old core.new all.items) }
{
    let mut all = Vec::new(alloc);
    for _ in 0..u64::MAX {
        if !is_root_done(core.core()) {
            return Ok(all);
        }
        // Room is made before the window is finished, so that its matches are not lost.
        all.reserve(1)?;
        all.push(finish_root(core))?;
    }
    Err(AllocError)
}
