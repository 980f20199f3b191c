ghost use Rattle.std.specs.Prelude.{◌≡◌, ℕ, ◌+◌, ◌<◌, ◌≤◌, slice_index, IsSome};
ghost use Rattle.sp_base.specs.Numbers.{is_among};
ghost use Rattle.sp_group.specs.Family.{entry_at};
ghost use Rattle.sp_chance.specs.Shares.{share_of};
ghost use Rattle.sp_tree.specs.Grown.{kin, parent_of};
ghost use Rattle.sp_pick.specs.Picking.{under, survival_in, survival_of_child, depth_in};
ghost use Rattle.sp_pick.specs.Paths.{above, climbed};

use sp_base::Share;
use sp_base::limits::WHOLE_SHARE;
use sp_chance::Chances;
use sp_group::Label;
use sp_tree::Tree;

/// How many versions of a path are kept at a time.
const STRETCH: usize = 64;

/// How likely a live version is to survive: the root is sure to, and a child does where its parent does and
/// each group of the parent turns out as the child's label says. Takes no memory.
pub fn survival<V>(tree: &Tree<V>, id: u64, chances: &Chances) -> Share
    requires { IsSome (entry_at kin tree.now.entries id) }
    ensures { result ≡ survival_in (share_of chances.now) tree.now.entries id }
{
    survival_at(tree, id, depth(tree, id), chances)
}

// The same, where it is known how many versions stand above it.
fn survival_at<V>(tree: &Tree<V>, id: u64, depth: u32, chances: &Chances) -> Share
    requires live { IsSome (entry_at kin tree.now.entries id) }
    requires depth { depth ≡ depth_in tree.now.entries id }
    ensures { result ≡ survival_in (share_of chances.now) tree.now.entries id }
{
    tree.live();
    let mut left = depth as usize;
    let mut share = Share::new(WHOLE_SHARE);
    while left > 0 {
        let count = left.min(STRETCH);
        left -= count;
        share = passed_down(tree, chances, ancestor(tree, id, left), count, share);
    }
    share
}

/// How likely a child of a live parent is to survive that has this label, or would have it. Takes no memory.
pub fn survival_with<V>(tree: &Tree<V>, parent: u64, label: &Label, chances: &Chances) -> Share
    requires { IsSome (entry_at kin tree.now.entries parent) }
    ensures { result ≡ survival_of_child (share_of chances.now) tree.now.entries parent label.now }
{
    let above = survival(tree, parent, chances);
    share_under(chances, parent, tree.groups(parent), label, above)
}

// How many versions stand above a live version.
fn depth<V>(tree: &Tree<V>, id: u64) -> u32
    requires { IsSome (entry_at kin tree.now.entries id) }
    ensures { result ≡ depth_in tree.now.entries id }
{
    tree.live();
    let mut depth = 0;
    let mut at = id;
    while let Some(parent) = tree.parent(at) {
        depth += 1;
        at = parent;
    }
    depth
}

// The version so many steps above, or the root where the way ends before.
fn ancestor<V>(tree: &Tree<V>, id: u64, steps: usize) -> u64
    ensures { result ≡ climbed tree.now.entries steps id }
{
    let mut at = id;
    for _ in 0..steps {
        at = tree.parent(at).unwrap_or(at);
    }
    at
}

// The version and so many less one above it, the nearest first; the root stands for those that are missing.
fn path_up<V>(tree: &Tree<V>, id: u64, count: usize) -> [u64; STRETCH]
    requires { count ≤ 64 }
    ensures { (k : ℕ) → k < count → slice_index result k ≡ climbed tree.now.entries k id }
{
    let mut path = [0; STRETCH];
    let mut at = id;
    for place in 0..count {
        path[place] = at;
        at = tree.parent(at).unwrap_or(at);
    }
    path
}

// The share of a version, from that of the version so many steps above it.
fn passed_down<V>(tree: &Tree<V>, chances: &Chances, id: u64, steps: usize, share: Share) -> Share
    requires live { IsSome (entry_at kin tree.now.entries id) }
    requires kept { steps ≤ 64 }
    requires within { steps ≤ depth_in tree.now.entries id }
    requires share { let es = tree.now.entries in share
        ≡ survival_in (share_of chances.now) es (climbed es steps id) }
    ensures { result ≡ survival_in (share_of chances.now) tree.now.entries id }
{
    tree.live();
    let path = path_up(tree, id, steps);
    let mut share = share;
    let mut left = steps;
    while left > 0 {
        left -= 1;
        share = child_share(tree, chances, path[left], share);
    }
    share
}

/// The share of a child, from that of its parent.
pub(crate) fn child_share<V>(tree: &Tree<V>, chances: &Chances, id: u64, share: Share) -> Share
    requires child { IsSome (parent_of (entry_at kin tree.now.entries id)) }
    requires share { let es = tree.now.entries in share
        ≡ survival_in (share_of chances.now) es (above es id) }
    ensures { result ≡ survival_in (share_of chances.now) tree.now.entries id }
{
    tree.live();
    match (tree.parent(id), tree.label(id)) {
        (Some(parent), Some(label)) => {
            share_under(chances, parent, tree.groups(parent), label, share)
        }
        // A child has both.
        _ => unreachable!(),
    }
}

// The part of a parent's share that a child with this label has: group by group, rounded down at each.
fn share_under(chances: &Chances, parent: u64, groups: &[u32], label: &Label, share: Share) -> Share
    ensures { result ≡ under (share_of chances.now parent) groups.now label.now share }
{
    let mut share = share;
    for run in groups {
        let chance = chances.get(parent, *run);
        let part = if has_run(label, *run) {
            chance
        } else {
            chance.rest()
        };
        share = share.times(part);
    }
    share
}

// Whether a label has this run, searched by halves.
fn has_run(label: &Label, run: u32) -> bool
    ensures { result ≡ is_among label.now run }
{
    label.runs().binary_search(&run).is_ok()
}
