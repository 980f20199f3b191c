ghost use Rattle.std.specs.List.{All};
ghost use Rattle.std.specs.Prelude.{◌≡◌, ◌≢◌, ◌↔◌, ◌+◌, ◌<◌, ◌≤◌, true, false, length, option_copied, IfOk, IfErr, OnOk, OnErr, IsTrue, IsSome, IsNone, IfSome, [], reverse, map};
ghost use Rattle.std.specs.Option.{option_copied_mut};
ghost use Rattle.std.specs.Borrow.{sem};
ghost use Rattle.sp_base.specs.Numbers.{is_among};
ghost use Rattle.sp_base.specs.Limits.{live_limit};
ghost use Rattle.sp_group.specs.Family.{entry_at, prune};
ghost use Rattle.sp_group.specs.Rising.{IsLabel};
ghost use Rattle.sp_tree.specs.Branches.{changed_by, kept_shape, AreFalling, AreReshaped};
ghost use Rattle.sp_tree.specs.Children.{AreFamily};
ghost use Rattle.sp_tree.specs.Paths.{completed_in, ids_under, path_to};
ghost use Rattle.sp_tree.specs.Changes.{decided, promoted};
ghost use Rattle.sp_tree.specs.Grown.{Grown, opened, kin, lifted, pruned, with_child, value_of, is_open, groups_of, root_in, without_root, renewed, answered, parent_of, label_of, with_all_groups, with_group, AreGrown, CanStand, IsChild, LacksChild};
ghost use Rattle.sp_tree.specs.Joined.{joined, AreJoined, IsPrunedFrom, IsKept};
ghost use Rattle.sp_tree.specs.Faults.{IsAddFault};

use crate::Memory;
use crate::hanging::{cut_below, fill, make_missing, make_way, plant, renumber};
use crate::version::{Change, Version, child_of, find, has_parent, ids_of, index_of, root_of};
use crate::vertex::Below;
use sp_group::{Label, Outcome};
use sp_store::{PutFault, Store};
use std::alloc::Global;
use std::marker::Model;

// So many values of versions that went are left at most.
const MOST_LEFT: usize = 16;

/// The live versions, each with its parent, its label, its open groups and a value. Contracts see `entries`,
/// the newest first, the `next` id, and the `bound`, how many versions may be live at a time.
#[derive(Drop)]
pub struct Tree<V> {
    // The newest first, as the values are.
    versions: Vec<Version>,
    values: Store<V>,
    // Values of versions that went, until they are asked for.
    left: Vec<V>,
}

impl<V> Model for Tree<V> {
    ghost use Rattle.sp_tree.specs.Grown.{Grown, grown_code};

    ghost Value = { Grown V };

    ghost coded = { grown_code V.code };

    ghost use Rattle.sp_tree.specs.Joined.{joined, IsTree};

    ghost view = { λ t. record {
      entries = joined t.versions.items t.values.entries;
      next = t.values.next;
      bound = t.values.bound;
    } };

    ghost invariant = { λ t. IsTree t.versions.items t.values };
}

impl<V> Tree<V> {
    ghost use Rattle.sp_tree.specs.Lends.{lends_found};

    /// The value of a version, None exactly where the id isn't live.
    pub fn get(&self, id: u64) -> Option<&V>
        ensures { option_copied result ≡ value_of (entry_at kin self.now.entries id) }
    {
        self.values.get(id)
    }

    /// The value of a version that went, of those that are left the one that went last: so whoever has a use for what it
    /// holds can take it up. A few are left, and the others are dropped as they go.
    pub fn take_left(&mut self) -> Option<V>
        ensures { self.new ≡ self.old }
    {
        self.left.pop()
    }

    /// The value of a version for writing, None exactly where the id isn't live.
    pub fn get_mut(&mut self, id: u64) -> Option<&mut V>
        ensures* writes_back { sem 𝓛 (lends_found V.row self.entry id result) }
        ensures value { option_copied_mut result ≡ value_of (entry_at kin self.old.entries id) }
    {
        self.values.get_mut(id)
    }

    /// The version that has no parent; None exactly where no version is live.
    pub fn root(&self) -> Option<u64>
        ensures root { result ≡ root_in self.now.entries }
        ensures none { IsNone result → self.now.entries ≡ [] }
    {
        root_of(&self.versions)
    }

    /// The parent of a version; None exactly where the id isn't live or is the root.
    pub fn parent(&self, id: u64) -> Option<u64>
        ensures { result ≡ parent_of (entry_at kin self.now.entries id) }
    {
        match find(&self.versions, id) {
            Some(version) => version.parent,
            None => None,
        }
    }

    /// The label of a version; None exactly where the id isn't live.
    pub fn label(&self, id: u64) -> Option<&Label>
        ensures { option_copied result ≡ label_of (entry_at kin self.now.entries id) }
    {
        match find(&self.versions, id) {
            Some(version) => Some(&version.label),
            None => None,
        }
    }

    /// The open groups of a version by rising run, none where the id isn't live.
    pub fn groups(&self, id: u64) -> &[u32]
        ensures groups { result.now ≡ groups_of (entry_at kin self.now.entries id) }
        ensures label { IsLabel result.now }
    {
        match find(&self.versions, id) {
            Some(version) => version.groups.runs(),
            None => &[],
        }
    }

    /// The child of a parent that has this label; None exactly where no child of it has.
    pub fn child(&self, parent: u64, label: &Label) -> Option<u64>
        ensures some { IfSome result (λ id. IsChild self.now.entries parent label.now id) }
        ensures none { IsNone result → LacksChild self.now.entries parent label.now }
    {
        child_of(&self.versions, parent, label)
    }

    /// The live ids, rising.
    pub fn walk(&self, alloc: Global) -> Result<Vec<u64>, Memory>
        ensures { IfOk result
            (λ ids. ids.items ≡ reverse (map (λ e. e.version.id) self.now.entries)) }
    {
        ids_of(alloc, &self.versions)
    }

    /// Takes a version in under the next id, and answers the id: a root into an empty tree, or a child of a
    /// live parent, over some of its open groups. A fault hands the value back, and the tree is as before:
    /// `Full` comes exactly where as many versions are live as may be.
    pub fn add(
        &mut self,
        alloc: Global,
        parent: Option<u64>,
        label: Label,
        value: V,
    ) -> Result<u64, PutFault<V>>
        requires next { self.old.next < 18446744073709551615 }
        requires stands { CanStand self.old parent label }
        ensures id { IfOk result (λ id. id ≡ self.old.next) }
        ensures room { OnOk result (length self.old.entries < self.old.bound) }
        ensures added { OnOk result (self.new ≡ with_child self.old parent label value) }
        ensures err { OnErr result (self.new ≡ self.old) }
        ensures fault { IfErr result (IsAddFault self.old value) }
    {
        let live = self.values.live();
        let bound = self.values.bound();
        if live == bound {
            return Err(PutFault::Full { live, bound, value });
        }
        let Ok(spare) = make_way(alloc, &self.versions, parent, &label) else {
            return Err(PutFault::Memory(value));
        };
        if self.versions.reserve(1).is_err() {
            return Err(PutFault::Memory(value));
        }
        match self.values.put(value) {
            Ok(id) => {
                plant(&mut self.versions, parent, &label, id, spare);
                let version = Version {
                    id,
                    parent,
                    label,
                    groups: Label::empty(alloc),
                    below: Below::Nothing,
                };
                // There is room for it.
                let _ = self.versions.insert(0, version);
                Ok(id)
            }
            Err(fault) => Err(fault),
        }
    }

    /// A group of a live version opens, which isn't among its open ones. After want of memory the tree is as
    /// before.
    pub fn open_group(&mut self, alloc: Global, owner: u64, run: u32) -> Result<(), Memory>
        requires live { IsSome (entry_at kin self.old.entries owner) }
        requires given { run ≢ 0 }
        requires new { is_open self.old owner run ≡ false }
        ensures with { OnOk result (self.new ≡ with_group self.old owner run) }
        ensures err { OnErr result (self.new ≡ self.old) }
    {
        match find(&self.versions, owner) {
            Some(version) => {
                let mut groups = version.groups.copy(alloc)?;
                groups.insert(run)?;
                self.set_groups(alloc, owner, groups)
            }
            // The owner is live.
            None => Ok(()),
        }
    }

    /// The open groups of a live version are these from now on, and those before are among them. After want of
    /// memory, which comes only where the version has a child, the tree is as before.
    pub fn set_groups(&mut self, alloc: Global, owner: u64, groups: Label) -> Result<(), Memory>
        requires live { IsSome (entry_at kin self.old.entries owner) }
        requires more { All (λ r. is_among groups r ≡ true)
            (groups_of (entry_at kin self.old.entries owner)) }
        ensures with { OnOk result (self.new ≡ with_all_groups self.old owner groups) }
        ensures err { OnErr result (self.new ≡ self.old) }
        ensures child { OnErr result (ids_under self.old.entries owner ≢ []) }
    {
        let spare = make_missing(alloc, &self.versions, owner, &groups)?;
        fill(&mut self.versions, owner, groups, spare);
        Ok(())
    }

    /// The live ids whose parent it is, rising; none where it isn't live.
    pub fn children(&self, alloc: Global, id: u64) -> Result<Vec<u64>, Memory>
        ensures { IfOk result (λ ids. ids.items ≡ ids_under self.now.entries id) }
    {
        let mut ids = Vec::new(alloc);
        let Some(version) = find(&self.versions, id) else {
            return Ok(ids);
        };
        version.below.add_ids(&mut ids)?;
        ids.sort_unstable();
        Ok(ids)
    }

    /// For each open group of the parent, by rising run, the edge on the way to the version; None exactly where
    /// the id isn't live or is the root. The runs that are completed on it are those of the version's label.
    pub fn path(&self, alloc: Global, id: u64) -> Result<Option<Vec<(u32, Outcome)>>, Memory>
        ensures none { IfOk result
            (λ path. IsNone path ↔ parent_of (entry_at kin self.now.entries id) ≡ None) }
        ensures edges { IfOk result (λ path. IfSome path
            (λ p. p.items ≡ path_to self.now.entries (entry_at kin self.now.entries id))) }
        ensures label { IfOk result (λ path. IfSome path
            (λ p. Some (completed_in p.items) ≡ label_of (entry_at kin self.now.entries id))) }
    {
        let Some(version) = find(&self.versions, id) else {
            return Ok(None);
        };
        let Some(parent) = version.parent else {
            return Ok(None);
        };
        let Some(above) = find(&self.versions, parent) else {
            unreachable!()
        };
        let mut path = Vec::new(alloc);
        above.below.add_way(&version.label, &mut path)?;
        Ok(Some(path))
    }

    /// How many versions are live.
    pub fn live(&self) -> u32
        ensures live { result ≡ length self.now.entries }
        ensures grown { AreGrown self.now }
        ensures family { AreFamily (map (λ e. e.version) self.now.entries) }
    {
        self.values.live()
    }

    /// How many versions may be live at a time.
    pub fn bound(&self) -> u32
        ensures { result ≡ self.now.bound }
    {
        self.values.bound()
    }
}

impl<V: Drop> Tree<V> {
    /// No version is live, and at most `bound` may be at a time. The first id is 1.
    pub fn new(alloc: Global, bound: u32) -> Result<Tree<V>, Memory>
        requires some { 0 < bound }
        requires most { bound ≤ live_limit }
        ensures { IfOk result (λ tree. tree ≡ opened bound) }
    {
        let values = Store::new(alloc, bound)?;
        Ok(Tree {
            versions: Vec::new(alloc),
            values,
            left: Vec::with_capacity(alloc, MOST_LEFT)?,
        })
    }

    /// An open group of the owner is decided: it is open no more, and each child of the owner goes whose label
    /// foresaw another outcome, with all below it. The labels of the others lose the group. Answers how many
    /// versions went. Takes no memory.
    pub fn decide(&mut self, owner: u64, run: u32, outcome: Outcome) -> u32
        requires { IsTrue (is_open self.old owner run) }
        ensures tree { self.new ≡ pruned (decided owner run outcome) self.old }
        ensures count { result + length self.new.entries ≡ length self.old.entries }
    {
        let live = self.values.live();
        let change = Change::Decide {
            owner,
            run,
            outcome,
        };
        cut_below(&mut self.versions, owner, run, outcome);
        prune(
            &mut self.versions,
            &mut self.values,
            &mut self.left,
            0,
            change,
        );
        live - self.values.live()
    }

    /// A live version begins anew: it gets the next id, has no open group, and all below it goes. Answers the
    /// new id; None exactly where the old one isn't live. Takes no memory.
    pub fn renew(&mut self, id: u64) -> Option<u64>
        requires { self.old.next < 18446744073709551615 }
        ensures id { result ≡ answered self.old.next (entry_at kin self.old.entries id) }
        ensures tree { self.new ≡ renewed self.old id }
    {
        let index = index_of(&self.versions, id)?;
        let renewed = self.values.renew(id)?;
        let mut version = self.versions.remove(index);
        renumber(&mut self.versions, version.parent, &version.label, renewed);
        version.id = renewed;
        version.groups.clear();
        version.below = Below::Nothing;
        // The room of the version that was removed is left.
        let _ = self.versions.insert(0, version);
        prune(
            &mut self.versions,
            &mut self.values,
            &mut self.left,
            1,
            Change::Prune,
        );
        Some(renewed)
    }

    /// The root, which has no open group, goes, and its child is the root then; None exactly where it had no
    /// child. Takes no memory.
    pub fn promote(&mut self) -> Option<u64>
        requires root { IsSome (root_in self.old.entries) }
        requires groups { IfSome (root_in self.old.entries)
            (λ root. groups_of (entry_at kin self.old.entries root) ≡ []) }
        ensures tree { self.new ≡ without_root self.old (root_in self.old.entries) }
        ensures root { result ≡ root_in self.new.entries }
        ensures none { IsNone result → self.new.entries ≡ [] }
    {
        let root = root_of(&self.versions)?;
        let change = Change::Promote { root };
        prune(
            &mut self.versions,
            &mut self.values,
            &mut self.left,
            0,
            change,
        );
        root_of(&self.versions)
    }
}

// A value that went is left, where there is room for it. Takes no memory.
fn leave<V: Drop>(left: &mut Vec<V>, value: Option<V>) {
    if left.len() >= left.capacity() {
        return;
    }
    if let Some(value) = value {
        left.push_reserved(value);
    }
}

/// Changes all versions but the first ones, and takes away those that go or have lost their parent, with
/// their values, which are left.
fn prune<V: Drop>(
    versions: &mut Vec<Version>,
    values: &mut Store<V>,
    left: &mut Vec<V>,
    first: usize,
    change: Change,
)
    requires joined { AreJoined versions.old.items values.old }
    requires within { first ≤ length versions.old.items }
    ensures entries { IsPrunedFrom first (changed_by change)
        (joined versions.old.items values.old.entries)
        (joined versions.new.items values.new.entries) }
    ensures joined { AreJoined versions.new.items values.new }
    ensures shapes { AreReshaped kept_shape versions.old.items versions.new.items }
    ensures rest { (values.new.next ≡ values.old.next) × (values.new.bound ≡ values.old.bound) }
{
    let mut i = versions.len();
    while i > first {
        i -= 1;
        if !stays(versions, i, change) {
            let gone = versions.remove(i);
            leave(left, values.take(gone.id));
        }
    }
}

/// Whether a version stays over the older ones; it is changed then.
fn stays(versions: &mut Vec<Version>, i: usize, change: Change) -> bool
    requires within { i < length versions.old.items }
    requires fall { AreFalling versions.old.items }
    ensures { IsKept (changed_by change) i versions.old.items versions.new.items result }
{
    let version = &mut versions[i];
    if !version.settle(change) {
        return false;
    }
    let parent = version.parent;
    has_parent(&versions[i + 1..], parent)
}
