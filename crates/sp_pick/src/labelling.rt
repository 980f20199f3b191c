ghost use Rattle.std.specs.Prelude.{◌≡◌, ◌≢◌, IsSome, IfOk, IfSome, OnOk, All, MatchBool, true};
ghost use Rattle.sp_group.specs.Family.{entry_at};
ghost use Rattle.sp_group.specs.Rising.{IsLabel};
ghost use Rattle.sp_chance.specs.Shares.{share_of};
ghost use Rattle.sp_tree.specs.Grown.{kin, is_open, LacksChild};
ghost use Rattle.sp_pick.specs.Picking.{best, candidates_in, IsNext, IsTaken};
ghost use Rattle.sp_pick.specs.Turning.{turned_round};

use crate::Memory;
use sp_chance::Chances;
use sp_group::Label;
use sp_tree::Tree;
use std::alloc::Global;

/// A group that is likelier than this to complete is in the best label.
const HALF: u32 = 32_768;

/// The label of the next child of a live parent: the best one, or else the first of those that differ from it in
/// one group, by rising run, that no child has yet. None exactly where children have all of these.
pub fn next_label<V>(
    alloc: Global,
    tree: &Tree<V>,
    parent: u64,
    chances: &Chances,
) -> Result<Option<Label>, Memory>
    requires { IsSome (entry_at kin tree.now.entries parent) }
    ensures next { IfOk result
        (IsNext tree.now.entries parent
        (candidates_in (share_of chances.now) tree.now.entries parent)) }
    ensures open { IfOk result
        (λ next. IfSome next (λ label. All (λ run. is_open tree.now parent run ≡ true) label)) }
{
    let groups = tree.groups(parent);
    let mut label = best_label(alloc, chances, parent, groups)?;
    if is_free(tree, parent, &label) {
        return Ok(Some(label));
    }
    for run in groups {
        turn(&mut label, *run)?;
        if is_free(tree, parent, &label) {
            return Ok(Some(label));
        }
        turn(&mut label, *run)?;
    }
    Ok(None)
}

// The label of the groups that are likelier to complete than not.
fn best_label(
    alloc: Global,
    chances: &Chances,
    parent: u64,
    groups: &[u32],
) -> Result<Label, Memory>
    requires { IsLabel groups.now }
    ensures { IfOk result (λ label. label ≡ best (share_of chances.now parent) groups.now) }
{
    let mut likely = Vec::new(alloc);
    for run in groups {
        if chances.get(parent, *run).get() > HALF {
            likely.push(*run)?;
        }
    }
    match Label::new(alloc, &likely)? {
        Some(label) => Ok(label),
        // Some of the runs of a label are those of a label.
        None => unreachable!(),
    }
}

// Whether no child of the parent has the label.
fn is_free<V>(tree: &Tree<V>, parent: u64, label: &Label) -> bool
    ensures { MatchBool result (LacksChild tree.now.entries parent label.now)
        (IsTaken tree.now.entries parent label.now) }
{
    tree.child(parent, label).is_none()
}

// Takes a run in, or out where it is in.
fn turn(label: &mut Label, run: u32) -> Result<(), Memory>
    requires { run ≢ 0 }
    ensures { OnOk result (label.new ≡ turned_round label.old run) }
{
    if label.has(run) {
        label.remove(run);
        Ok(())
    } else {
        label.insert(run)
    }
}
