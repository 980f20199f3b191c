ghost use Rattle.std.specs.Prelude.{◌≡◌, ℕ, ◌≤◌, IsSome, IfOk, OnOk, All, IsSorted, IsPermutation, length, filter, map, ◌∷◌, ◌++◌, ◌==◌, is_none};
ghost use Rattle.std.specs.BinaryHeap.{heap_items, IsHeap, KeepsHeap};
ghost use Rattle.std.specs.Ordering.{nat_cmp};
ghost use Rattle.sp_group.specs.Family.{entry_at};
ghost use Rattle.sp_chance.specs.Shares.{share_of};
ghost use Rattle.sp_tree.specs.Grown.{kin};
ghost use Rattle.sp_tree.specs.Paths.{ids_under};
ghost use Rattle.sp_pick.specs.Picking.{IsPicked, RootIsFirst};
ghost use Rattle.sp_pick.specs.Ranks.{rank_cmp, rank_in, ids_by};

use crate::Memory;
use crate::surviving::child_share;
use sp_base::Share;
use sp_base::limits::WHOLE_SHARE;
use sp_chance::Chances;
use sp_tree::Tree;
use std::alloc::{AllocError, Global};
use std::cmp::Reverse;
use std::collections::BinaryHeap;

// Where a version stands among those to be picked: the greatest comes first.
#[derive(Clone, Copy, Drop, PartialEq, Eq, PartialOrd, Ord)]
struct Rank {
    survival: u32,
    depth: Reverse<u32>,
    id: Reverse<u64>,
}

// The ready ids, rising.
fn rising(alloc: Global, ready: &[u64]) -> Result<Vec<u64>, Memory>
    ensures permutation { IfOk result (λ ids. IsPermutation ready.now ids.items) }
    ensures sorted { IfOk result (λ ids. IsSorted nat_cmp ids.items) }
{
    let mut ids = ready.to_vec(alloc)?;
    ids.sort_unstable();
    Ok(ids)
}

// How often an id is among these, which rise: searched by halves.
fn times_in(ids: &[u64], id: u64) -> usize
    requires { IsSorted nat_cmp ids.now }
    ensures { result ≡ length (filter (λ other. other == id) ids.now) }
{
    ids.partition_point(|other| *other <= id) - ids.partition_point(|other| *other < id)
}

// One more waits.
fn put(waiting: &mut BinaryHeap<Rank>, rank: Rank) -> Result<(), Memory>
    ensures permutation { OnOk result
        (IsPermutation (rank ∷ heap_items waiting.old) (heap_items waiting.new)) }
    ensures heap { OnOk result
        (KeepsHeap rank_cmp (heap_items waiting.old) (heap_items waiting.new)) }
{
    waiting.push(rank).or(Err(AllocError))
}

// The root waits alone, where there is one.
fn with_root<V>(
    alloc: Global,
    tree: &Tree<V>,
    chances: &Chances,
) -> Result<BinaryHeap<Rank>, Memory>
    ensures root { let es = tree.now.entries in IfOk result
        (λ waiting. IsPermutation (map (rank_in (share_of chances.now) es) (ids_by is_none es))
        (heap_items waiting)) }
    ensures heap { IfOk result (λ waiting. IsHeap rank_cmp (heap_items waiting)) }
{
    tree.live();
    let mut waiting = BinaryHeap::new(alloc);
    let Some(root) = tree.root() else {
        return Ok(waiting);
    };
    let rank = Rank {
        survival: WHOLE_SHARE,
        depth: Reverse(0),
        id: Reverse(root),
    };
    put(&mut waiting, rank)?;
    Ok(waiting)
}

// Puts the children of a version to those that wait, their survival made from its own.
fn push_children<V>(
    alloc: Global,
    tree: &Tree<V>,
    chances: &Chances,
    above: Rank,
    waiting: &mut BinaryHeap<Rank>,
) -> Result<(), Memory>
    requires { above ≡ rank_in (share_of chances.now) tree.now.entries above.id.0 }
    ensures children { let es = tree.now.entries in OnOk result
        (IsPermutation (heap_items waiting.old
        ++ map (rank_in (share_of chances.now) es) (ids_under es above.id.0))
        (heap_items waiting.new)) }
    ensures heap { OnOk result
        (KeepsHeap rank_cmp (heap_items waiting.old) (heap_items waiting.new)) }
{
    tree.live();
    chances.are_parts();
    let children = tree.children(alloc, above.id.0)?;
    for id in &children {
        let survival = child_share(tree, chances, *id, Share::new(above.survival)).get();
        let rank = Rank {
            survival,
            depth: Reverse(above.depth.0 + 1),
            id: Reverse(*id),
        };
        put(waiting, rank)?;
    }
    Ok(())
}

/// The first `k` of the ready versions, which are live: those that are likeliest to survive, of these the least
/// deep, of these the ones of the least ids. There are fewer exactly where fewer are ready. The root, which is
/// sure to survive, is first wherever it is ready.
pub fn pick<V>(
    alloc: Global,
    tree: &Tree<V>,
    chances: &Chances,
    ready: &[u64],
    k: u32,
) -> Result<Vec<u64>, Memory>
    requires { All (λ id. IsSome (entry_at kin tree.now.entries id)) ready.now }
    ensures picked { IfOk result
        (λ ids. IsPicked (share_of chances.now) tree.now.entries ready.now k ids.items) }
    ensures root { IfOk result (λ ids. RootIsFirst tree.now.entries ready.now k ids.items) }
{
    chances.are_parts();
    let ids = rising(alloc, ready)?;
    let mut left = ids.len().min(k as usize);
    let mut picked = Vec::with_capacity(alloc, left)?;
    // From the root on: no child is likelier to survive than its parent, and each is deeper.
    let mut waiting = with_root(alloc, tree, chances)?;
    // Each version waits once.
    for _ in 0..tree.live() {
        let Some(rank) = waiting.pop() else {
            break;
        };
        let times = times_in(&ids, rank.id.0).min(left);
        picked.resize(picked.len() + times, rank.id.0)?;
        left -= times;
        if left == 0 {
            break;
        }
        push_children(alloc, tree, chances, rank, &mut waiting)?;
    }
    Ok(picked)
}
