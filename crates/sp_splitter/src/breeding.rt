// Children are made, the likeliest first.
ghost use Rattle.std.specs.Prelude.{◌≡◌, ℕ, IfOk, OnOk, OnErr, MatchBool};
ghost use Rattle.sp_chance.specs.Shares.{share_of};
ghost use Rattle.sp_group.specs.Steps.{IsSpreadOut};
ghost use Rattle.sp_core.specs.Showing.{IsTreeOf};
ghost use Rattle.sp_spread.specs.Calm.{Settled};
ghost use Rattle.sp_spread.specs.Guessing.{AreGuessed};
ghost use Rattle.sp_splitter.specs.Breeding.{Breeds, IsWide};
ghost use Rattle.sp_splitter.specs.Bearing.{HasBorn, IsBarren, IsFoundFor, IsFoundAmongAll};
ghost use Rattle.sp_splitter.specs.Bearing.{chosen, comes_before};
ghost use Rattle.sp_splitter.specs.Stages.{Goes, NoneEmitted, NoneRead, Went};

use crate::counting::count_busy;
use crate::{Memory, law};
use sp_base::Share;
use sp_chance::Chances;
use sp_core::{Core, CoreFault};
use sp_group::Label;
use sp_lend::{Lender, Lending};
use sp_pick::{next_label, survival_with};
use sp_tree::Tree;
use sp_version::Version;
use std::alloc::{AllocError, Global};

/// A child that could be made, and what it is chosen by.
#[derive(Drop)]
pub(crate) struct Born {
    parent: u64,
    label: Label,
    // how likely it is to survive
    survival: Share,
    // the window of its parent
    window: u32,
}

/// Makes children, each the one of the greatest survival, ties by window and then by parent, while fewer than
/// `instances + 1` versions are out or ready, fewer are live than may be, and a child could be made.
pub(crate) fn breed<B: Lending>(
    alloc: Global,
    core: &mut Lender<B>,
    chances: &Chances,
    instances: u32,
) -> Result<(), Memory>
    requires settled { Settled core.old.plan core.old.machine }
    ensures went { (n batch : ℕ) → Went n batch core.old core.new }
    ensures goes { OnOk result ((n : ℕ) → Goes n core.old core.new) }
    ensures emitted { NoneEmitted core.old core.new }
    ensures read { NoneRead core.old core.new }
    ensures settled { OnOk result (Settled core.new.plan core.new.machine) }
    ensures guessed { OnOk result ((m : ℕ → ℕ → ℕ)
        → AreGuessed core.old.plan core.old.machine m (share_of chances.now)
        → AreGuessed core.new.plan core.new.machine m (share_of chances.now)) }
    ensures bred { OnOk result (Breeds (share_of chances.now) instances core.old core.new) }
    ensures wide { OnOk result (IsWide (share_of chances.now) instances core.new) }
    ensures spread_out { OnOk result
        (IsSpreadOut core.new.plan core.new.bound instances core.new.machine) }
{
    let mut busy = count_busy(alloc, core.core())?;
    law::known(core);
    while busy <= instances as usize {
        if !bear_best(alloc, core, chances)? {
            return Ok(());
        }
        law::known(core);
        busy += 1;
    }
    Ok(())
}

// Makes the best child, where one more version may be live and a child could be made. Answers whether it
// did.
fn bear_best<B: Lending>(
    alloc: Global,
    core: &mut Lender<B>,
    chances: &Chances,
) -> Result<bool, Memory>
    ensures born { IfOk result (λ born. MatchBool born
        (HasBorn (share_of chances.now) core.old core.new)
        (IsBarren (share_of chances.now) core.old core.new)) }
    ensures err { OnErr result (core.new ≡ core.old) }
{
    let tree = core.core().tree();
    if tree.live() == tree.bound() {
        return Ok(false);
    }
    let Some(child) = best_child(alloc, core.core(), tree, chances)? else {
        return Ok(false);
    };
    // It tells what a label is.
    child.label.runs();
    match core.spawn(alloc, Some(child.parent), child.label) {
        Ok(_) => Ok(true),
        Err(CoreFault::Memory) => Err(AllocError),
        // It could be made.
        Err(CoreFault::Refused(_)) => unreachable!(),
    }
}

// The best of the children that could be made; None where none could.
fn best_child(
    alloc: Global,
    core: &Core,
    tree: &Tree<Version>,
    chances: &Chances,
) -> Result<Option<Born>, Memory>
    requires tree { IsTreeOf core.now tree.now }
    ensures { IfOk result (IsFoundAmongAll core.now tree.now (share_of chances.now)) }
{
    let ids = tree.walk(alloc)?;
    let mut best = None;
    for id in &ids {
        let child = child_of(alloc, core, tree, *id, chances)?;
        best = better(best, child);
    }
    Ok(best)
}

// The child that a version could have next; None where it could have none.
fn child_of(
    alloc: Global,
    core: &Core,
    tree: &Tree<Version>,
    parent: u64,
    chances: &Chances,
) -> Result<Option<Born>, Memory>
    requires tree { IsTreeOf core.now tree.now }
    ensures { IfOk result (IsFoundFor core.now tree.now (share_of chances.now) parent) }
{
    let Some(held) = tree.get(parent) else {
        return Ok(None);
    };
    if core.windows().count() <= held.window {
        return Ok(None);
    }
    let Some(label) = next_label(alloc, tree, parent, chances)? else {
        return Ok(None);
    };
    let survival = survival_with(tree, parent, &label, chances);
    Ok(Some(Born {
        parent,
        label,
        survival,
        window: held.window,
    }))
}

// The one of two children that is made before the other.
fn better(one: Option<Born>, other: Option<Born>) -> Option<Born>
    ensures { result ≡ chosen one other }
{
    match (one, other) {
        (Some(one), Some(other)) => {
            if is_before(&one, &other) {
                Some(one)
            } else {
                Some(other)
            }
        }
        (None, other) => other,
        (one, None) => one,
    }
}

// Whether a child is made before another: by the greatest survival, then the least window, then the
// least parent.
fn is_before(one: &Born, other: &Born) -> bool
    ensures { result ≡ comes_before one.now other.now }
{
    let (survival, its) = (one.survival.get(), other.survival.get());
    if survival != its {
        return its < survival;
    }
    if one.window != other.window {
        return one.window < other.window;
    }
    one.parent <= other.parent
}
