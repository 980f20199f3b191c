// Parts are dealt to trees, group by group, and what was found in them is gathered in the order of the parts.
ghost use Rattle.std.specs.Prelude.{◌≡◌, ◌<◌, ◌++◌, [], take, drop, map, vec_len, IfOk, OnOk};
ghost use Rattle.std.specs.VecDeque.{deque_len};
ghost use Rattle.std.specs.List.{All};
ghost use Rattle.sp_forest.specs.Dealing.{AreDealt, dealt, heads, tails, woven};

use crate::tree::Tree;
use sp_parts::Part;
use sp_plan::{Match, Memory};
use std::alloc::Global;
use std::collections::VecDeque;

// Events: a round has so many at most, unless its first group has more.
const ROUND_EVENTS: usize = 1 << 16;

// How many events the next so many parts have.
fn next_events(waiting: &VecDeque<Part>, count: usize) -> usize {
    waiting.iter().take(count).fold(0, |sum: usize, part| sum.saturating_add(part.events.len()))
}

// Deals the next part to a tree, if there is one. After want of memory it is lost.
fn deal(waiting: &mut VecDeque<Part>, tree: &mut Tree) -> Result<(), Memory>
    ensures parts { OnOk result (tree.new.parts.items
        ≡ tree.old.parts.items ++ take 1 waiting.old.items) }
    ensures left { waiting.new.items ≡ drop 1 waiting.old.items }
    ensures name { named tree.new.predictor ≡ named tree.old.predictor }
    ensures plan { tree.new.plan ≡ tree.old.plan }
{
    if let Some(part) = waiting.pop_front() {
        tree.parts.push(part)?;
    }
    Ok(())
}

// Deals the next parts to the trees, one to each, as far as they go. After want of memory a part may be lost.
fn deal_group(waiting: &mut VecDeque<Part>, trees: &mut Vec<Tree>) -> Result<(), Memory>
    ensures dealt { OnOk result (map (λ tree. tree.parts.items) trees.new.items
        ≡ dealt (map (λ tree. tree.parts.items) trees.old.items) waiting.old.items) }
    ensures left { OnOk result (waiting.new.items
        ≡ drop (vec_len trees.old) waiting.old.items) }
    ensures names { OnOk result (map (λ tree. named tree.predictor) trees.new.items
        ≡ map (λ tree. named tree.predictor) trees.old.items) }
    ensures plans { OnOk result (map (λ tree. tree.plan) trees.new.items
        ≡ map (λ tree. tree.plan) trees.old.items) }
{
    for tree in trees.iter_mut() {
        deal(waiting, tree)?;
    }
    Ok(())
}

/// Deals the parts of a round to trees that have none: as many groups of one for each tree as have no more than 65,536
/// events together, and at least one. Answers how many. After want of memory a part may be lost.
pub(crate) fn deal_round(
    waiting: &mut VecDeque<Part>,
    trees: &mut Vec<Tree>,
) -> Result<usize, Memory>
    requires trees { 0 < vec_len trees.old }
    requires idle { All (λ tree. tree.parts.items ≡ []) trees.old.items }
    requires some { 0 < deque_len waiting.old }
    ensures dealt { IfOk result (λ groups. AreDealt waiting.old.items groups
        (map (λ tree. tree.parts.items) trees.new.items) waiting.new.items) }
    ensures fewer { OnOk result (deque_len waiting.new < deque_len waiting.old) }
    ensures names { OnOk result (map (λ tree. named tree.predictor) trees.new.items
        ≡ map (λ tree. named tree.predictor) trees.old.items) }
    ensures plans { OnOk result (map (λ tree. tree.plan) trees.new.items
        ≡ map (λ tree. tree.plan) trees.old.items) }
{
    let count = trees.len();
    let mut events = next_events(waiting, count);
    deal_group(waiting, trees)?;
    let mut groups = 1;
    while !waiting.is_empty() {
        events = events.saturating_add(next_events(waiting, count));
        if events > ROUND_EVENTS {
            break;
        }
        deal_group(waiting, trees)?;
        groups += 1;
    }
    Ok(groups)
}

// Takes the first of what a tree found, if it found some. After want of memory it is lost.
fn take_found(tree: &mut Tree, all: &mut Vec<Vec<Match>>) -> Result<(), Memory>
    ensures head { OnOk result (all.new.items ≡ all.old.items ++ take 1 tree.old.found.items) }
    ensures tail { tree.new.found.items ≡ drop 1 tree.old.found.items }
    ensures name { named tree.new.predictor ≡ named tree.old.predictor }
    ensures plan { tree.new.plan ≡ tree.old.plan }
    ensures parts { tree.new.parts.items ≡ tree.old.parts.items }
{
    if let Some(found) = tree.found.pop_front() {
        all.push(found)?;
    }
    Ok(())
}

// Takes the first of what each tree found, in the order of the trees. After want of memory some may be lost.
fn gather_group(trees: &mut Vec<Tree>, all: &mut Vec<Vec<Match>>) -> Result<(), Memory>
    ensures heads { OnOk result (all.new.items ≡ all.old.items
        ++ heads (map (λ tree. tree.found.items) trees.old.items)) }
    ensures tails { OnOk result (map (λ tree. tree.found.items) trees.new.items
        ≡ tails (map (λ tree. tree.found.items) trees.old.items)) }
    ensures names { OnOk result (map (λ tree. named tree.predictor) trees.new.items
        ≡ map (λ tree. named tree.predictor) trees.old.items) }
    ensures plans { OnOk result (map (λ tree. tree.plan) trees.new.items
        ≡ map (λ tree. tree.plan) trees.old.items) }
    ensures parts { OnOk result (map (λ tree. tree.parts.items) trees.new.items
        ≡ map (λ tree. tree.parts.items) trees.old.items) }
{
    for tree in trees.iter_mut() {
        take_found(tree, all)?;
    }
    Ok(())
}

/// Takes what the trees found in the parts of so many groups, in the order of the parts. After want of memory some may
/// be lost.
pub(crate) fn gather(
    alloc: Global,
    trees: &mut Vec<Tree>,
    groups: usize,
) -> Result<Vec<Vec<Match>>, Memory>
    ensures found { IfOk result (λ all. all.items
        ≡ woven groups (map (λ tree. tree.found.items) trees.old.items)) }
    ensures names { OnOk result (map (λ tree. named tree.predictor) trees.new.items
        ≡ map (λ tree. named tree.predictor) trees.old.items) }
    ensures plans { OnOk result (map (λ tree. tree.plan) trees.new.items
        ≡ map (λ tree. tree.plan) trees.old.items) }
    ensures parts { OnOk result (map (λ tree. tree.parts.items) trees.new.items
        ≡ map (λ tree. tree.parts.items) trees.old.items) }
{
    let mut all = Vec::new(alloc);
    for _ in 0..groups {
        gather_group(trees, &mut all)?;
    }
    Ok(all)
}
