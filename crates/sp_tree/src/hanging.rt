ghost use Rattle.std.specs.Prelude.{◌≡◌, false, length, map, vec_capacity, IfOk, OnErr, IsSome};
ghost use Rattle.sp_group.specs.Family.{entry_at};
ghost use Rattle.sp_tree.specs.Branches.{branches, seen, at_one, AreFalling, AreReshaped, HasVertices, HasMissing, HasBelow, IsFilled};
ghost use Rattle.sp_tree.specs.Shape.{cut, planted, renumbered};

use crate::Memory;
use crate::version::{Version, find, index_of};
use crate::vertex::Vertex;
use sp_group::{Label, Outcome};
use std::alloc::Global;

/// Makes the vertices that `fill` takes. It can't fail where nothing hangs below the owner.
pub(crate) fn make_missing(
    alloc: Global,
    versions: &[Version],
    owner: u64,
    groups: &Label,
) -> Result<Vec<Box<Vertex>>, Memory>
    requires fall { AreFalling versions.now }
    requires live { IsSome (entry_at branches versions.now owner) }
    ensures made { IfOk result
        (λ spare. HasMissing versions.now owner groups.now (length spare.items)) }
    ensures some { OnErr result (HasBelow versions.now owner) }
{
    let Some(version) = find(versions, owner) else {
        unreachable!()
    };
    let mut spare = Vec::new(alloc);
    version
        .below
        .make_missing(alloc, groups.runs(), &mut spare)?;
    Ok(spare)
}

/// The open groups of a version are these from now on, and those before are among them.
pub(crate) fn fill(
    versions: &mut Vec<Version>,
    owner: u64,
    groups: Label,
    mut spare: Vec<Box<Vertex>>,
)
    requires fall { AreFalling versions.old.items }
    requires live { IsSome (entry_at branches versions.old.items owner) }
    requires spare { HasMissing versions.old.items owner groups (length spare.items) }
    ensures { IsFilled versions.old.items owner groups versions.new.items }
{
    let Some(index) = index_of(versions, owner) else {
        unreachable!()
    };
    let version = &mut versions[index];
    version.below.fill(groups.runs(), &mut spare);
    version.groups = groups;
}

/// Makes the vertices that `plant` takes.
pub(crate) fn make_way(
    alloc: Global,
    versions: &[Version],
    parent: Option<u64>,
    label: &Label,
) -> Result<Vec<Box<Vertex>>, Memory>
    requires { AreFalling versions.now }
    ensures { IfOk result
        (λ spare. HasVertices versions.now parent label.now (length spare.items)) }
{
    let mut spare = Vec::new(alloc);
    if let Some(parent) = parent {
        if let Some(above) = find(versions, parent) {
            above
                .below
                .make_way(alloc, above.groups.runs(), label, &mut spare)?;
        }
    }
    Ok(spare)
}

/// A child of this id hangs below its parent, where one is named, by its label.
pub(crate) fn plant(
    versions: &mut Vec<Version>,
    parent: Option<u64>,
    label: &Label,
    id: u64,
    mut spare: Vec<Box<Vertex>>,
)
    requires fall { AreFalling versions.old.items }
    requires spare { HasVertices versions.old.items parent label.now (length spare.items) }
    ensures seen { map seen versions.new.items ≡ map seen versions.old.items }
    ensures shapes { AreReshaped (at_one parent (λ groups. planted groups label.now id))
        versions.old.items versions.new.items }
    ensures room { vec_capacity versions.new ≡ vec_capacity versions.old }
{
    let Some(parent) = parent else {
        return;
    };
    if let Some(index) = index_of(versions, parent) {
        let above = &mut versions[index];
        above
            .below
            .plant(above.groups.runs(), label, id, &mut spare);
    }
}

/// The child of a parent, where one is named, that has this label is of this id from now on.
pub(crate) fn renumber(versions: &mut Vec<Version>, parent: Option<u64>, label: &Label, id: u64)
    requires { AreFalling versions.old.items }
    ensures seen { map seen versions.new.items ≡ map seen versions.old.items }
    ensures shapes { AreReshaped (at_one parent (λ groups. renumbered label.now id))
        versions.old.items versions.new.items }
    ensures room { vec_capacity versions.new ≡ vec_capacity versions.old }
{
    let Some(parent) = parent else {
        return;
    };
    if let Some(index) = index_of(versions, parent) {
        let above = &mut versions[index];
        above.below.renumber(label, id);
    }
}

/// A group of the owner is decided: what hangs below the owner under wrong edges is cut off.
pub(crate) fn cut_below(versions: &mut Vec<Version>, owner: u64, run: u32, outcome: Outcome)
    requires { AreFalling versions.old.items }
    ensures seen { map seen versions.new.items ≡ map seen versions.old.items }
    ensures shapes { AreReshaped (at_one (Some owner) (λ groups. cut run outcome))
        versions.old.items versions.new.items }
{
    if let Some(index) = index_of(versions, owner) {
        let version = &mut versions[index];
        version.below.decide(run, outcome);
    }
}
