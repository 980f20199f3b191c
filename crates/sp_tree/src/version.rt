ghost use Rattle.std.specs.Prelude.{◌≡◌, ◌↔◌, ◌<◌, ℕ, length, option_copied, IsTrue, IfOk, IfSome, IsNone, None, map, reverse};
ghost use Rattle.sp_group.specs.Family.{entry_at, parent_there};
ghost use Rattle.sp_tree.specs.Branches.{branches, changed_by, root_among, IsSettled, IsIndex, AreFalling, IsUnder, IsChildAt, AreNoChild};
ghost use Rattle.sp_tree.specs.Changes.{decided, promoted};

use crate::Memory;
use crate::vertex::Below;
use sp_group::{Label, Outcome};
use std::alloc::Global;

/// Where a version stands in the tree: under which parent and by which of the parent's groups, which groups of
/// its own are open, and what hangs below it.
#[derive(Drop)]
pub(crate) struct Version {
    pub(crate) id: u64,
    pub(crate) parent: Option<u64>,
    pub(crate) label: Label,
    pub(crate) groups: Label,
    pub(crate) below: Below,
}

/// What happens to all versions at once.
#[derive(Clone, Copy, Drop)]
pub(crate) enum Change {
    /// A group of the owner is decided.
    Decide {
        owner: u64,
        run: u32,
        outcome: Outcome,
    },
    /// The root goes, and its children lose their parent.
    Promote {
        root: u64,
    },
    /// Nothing, but that what has lost its parent goes.
    Prune,
}

impl Version {
    /// Whether the version stays; it is changed then.
    pub(crate) fn settle(&mut self, change: Change) -> bool
        ensures { IsSettled (changed_by change) self.old self.new result }
    {
        match change {
            Change::Decide {
                owner,
                run,
                outcome,
            } => self.decide(owner, run, outcome),
            Change::Promote { root } => self.promote(root),
            Change::Prune => true,
        }
    }

    /// Whether the version is a child of the parent, with this label.
    fn is_under(&self, parent: u64, label: &Label) -> bool
        ensures { IsTrue result ↔ IsUnder self.now parent label.now }
    {
        self.parent == Some(parent) && self.label.same(label)
    }

    fn decide(&mut self, owner: u64, run: u32, outcome: Outcome) -> bool
        ensures { IsSettled (decided owner run outcome) self.old self.new result }
    {
        if self.id == owner {
            self.groups.remove(run);
            return true;
        }
        if self.parent != Some(owner) {
            return true;
        }
        if self.label.has(run) != (outcome == Outcome::Completed) {
            return false;
        }
        self.label.remove(run);
        true
    }

    fn promote(&mut self, root: u64) -> bool
        ensures { IsSettled (promoted root) self.old self.new result }
    {
        if self.id == root {
            return false;
        }
        if self.parent == Some(root) {
            self.parent = None;
        }
        true
    }
}

/// The version of an id.
pub(crate) fn find(versions: &[Version], id: u64) -> Option<&Version>
    requires { AreFalling versions.now }
    ensures { option_copied result ≡ entry_at branches versions.now id }
{
    let index = index_of(versions, id)?;
    Some(&versions[index])
}

/// Whether the parent is there, where one is named.
pub(crate) fn has_parent(versions: &[Version], parent: Option<u64>) -> bool
    requires { AreFalling versions.now }
    ensures { result ≡ parent_there branches versions.now parent }
{
    match parent {
        None => true,
        // It is often the next older one.
        Some(id) => match versions {
            [next, ..] if next.id == id => true,
            _ => find(versions, id).is_some(),
        },
    }
}

/// The version that has no parent.
pub(crate) fn root_of(versions: &[Version]) -> Option<u64>
    ensures { result ≡ root_among versions.now }
{
    for version in versions {
        if version.parent.is_none() {
            return Some(version.id);
        }
    }
    None
}

/// The index of an id. It stands as far behind the newest one as its id is below that one's, where none between them
/// has gone; else it is searched.
pub(crate) fn index_of(versions: &[Version], id: u64) -> Option<usize>
    requires { AreFalling versions.now }
    ensures some { IfSome result (λ index. IsIndex versions.now id index) }
    ensures none { IsNone result → entry_at branches versions.now id ≡ None }
{
    if let Some(newest) = versions.first() {
        let near = newest.id.saturating_sub(id) as usize;
        if near < versions.len() && versions[near].id == id {
            return Some(near);
        }
    }
    search(versions, id)
}

// The index of an id, searched by halves.
fn search(versions: &[Version], id: u64) -> Option<usize>
    requires { AreFalling versions.now }
    ensures some { IfSome result (λ index. IsIndex versions.now id index) }
    ensures none { IsNone result → entry_at branches versions.now id ≡ None }
{
    let index = versions.partition_point(|version| version.id > id);
    if index < versions.len() && versions[index].id == id {
        Some(index)
    } else {
        None
    }
}

/// The child of a parent that has this label.
pub(crate) fn child_of(versions: &[Version], parent: u64, label: &Label) -> Option<u64>
    ensures some { IfSome result (λ id. IsChildAt versions.now parent label.now id) }
    ensures none { IsNone result → AreNoChild versions.now parent label.now }
{
    for i in 0..versions.len() {
        let version = &versions[i];
        if version.is_under(parent, label) {
            return Some(version.id);
        }
    }
    None
}

/// Their ids, rising.
pub(crate) fn ids_of(alloc: Global, versions: &[Version]) -> Result<Vec<u64>, Memory>
    ensures { IfOk result (λ ids. ids.items ≡ map (λ v. v.id) (reverse versions.now)) }
{
    let mut ids = Vec::with_capacity(alloc, versions.len())?;
    for version in versions {
        ids.push_reserved(version.id);
    }
    ids.reverse();
    Ok(ids)
}
