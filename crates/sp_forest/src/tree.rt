// Trees, each of which drives parts one after another.
ghost use Rattle.std.specs.Prelude.{◌≡◌, ◌≤◌, ◌∷◌, [], Ok, length, map, take, vec_len, IfOk};
ghost use Rattle.std.specs.Arc.{arc_value};
ghost use Rattle.std.specs.List.{All};
ghost use Rattle.std.specs.Thread.{IsSync};
ghost use Rattle.sp_plan.specs.Compiled.{IsCompiled};
ghost use Rattle.sp_forest.specs.Drivable.{AreDrivable, moved_matches};
ghost use Rattle.sp_parts.specs.Seen.{seen};
ghost use Rattle.sp_forest.specs.Setting.{IsSetting};

use crate::alone::drive_part;
use crate::forest::Trees;
use crate::ground::Ground;
use sp_chance::Predictor;
use sp_instance::Gate;
use sp_parts::Part;
use sp_plan::{Match, Memory, Plan};
use std::alloc::Global;
use std::collections::VecDeque;
use std::sync::{Arc, Wait};
use std::thread;
use std::thread::Threads;

/// A tree: its plan and its predictor, the parts that it has still to drive, and the matches of each one that it drove.
/// No other tree has its plan: who drives a part counts its owners up and down often.
#[derive(Drop)]
pub(crate) struct Tree {
    pub(crate) plan: Arc<Plan>,
    pub(crate) predictor: Box<dyn Predictor>,
    pub(crate) parts: Vec<Part>,
    pub(crate) found: VecDeque<Vec<Match>>,
}

/// A tree for each of the predictors, in their order, with the plan at its place.
pub(crate) fn trees_of(alloc: Global, trees: Trees) -> Result<Vec<Tree>, Memory>
    requires own { vec_len trees.predictors ≤ vec_len trees.own }
    ensures names { IfOk result (λ made. map (λ tree. named tree.predictor) made.items
        ≡ map (λ one. named one) trees.predictors.items) }
    ensures plans { IfOk result (λ made. map (λ tree. tree.plan) made.items
        ≡ take (vec_len trees.predictors) trees.own.items) }
    ensures idle { IfOk result (λ made. All (λ tree. tree.parts.items ≡ []) made.items) }
{
    let mut made = Vec::with_capacity(alloc, trees.predictors.len())?;
    let mut plans = trees.own.into_iter();
    for predictor in trees.predictors {
        let Some(plan) = plans.next() else {
            unreachable!()
        };
        made.push(Tree {
            plan,
            predictor,
            parts: Vec::new(alloc),
            found: VecDeque::new(alloc),
        })?;
    }
    Ok(made)
}

/// The predictors of trees, in their order.
pub(crate) fn predictors_of(
    alloc: Global,
    trees: Vec<Tree>,
) -> Result<Vec<Box<dyn Predictor>>, Memory>
    ensures { IfOk result (λ predictors. map (λ one. named one) predictors.items
        ≡ map (λ tree. named tree.predictor) trees.items) }
{
    let mut predictors = Vec::with_capacity(alloc, trees.len())?;
    for tree in trees {
        predictors.push(tree.predictor)?;
    }
    Ok(predictors)
}

// Drives the parts of a tree, one after another.
fn drive_tree<G: Gate, R: Threads + Wait + Sync>(
    ground: &Ground<'_, G, R>,
    tree: Tree,
) -> Result<Tree, Memory>
    requires compiled { IsCompiled (arc_value tree.plan) }
    requires setting { IsSetting ground.now.setting }
    requires parts { AreDrivable (arc_value tree.plan) ground.now.stop tree.parts.items }
    ensures name { IfOk result (λ end. named end.predictor ≡ named tree.predictor) }
    ensures plan { IfOk result (λ end. end.plan ≡ tree.plan) }
    ensures idle { IfOk result (λ end. end.parts.items ≡ []) }
    ensures found { IfOk result (λ end. map (λ own. own.items) end.found.items
        ≡ map (λ part. moved_matches (arc_value tree.plan) (seen part)) tree.parts.items) }
{
    let alloc = ground.alloc;
    let Tree {
        plan,
        mut predictor,
        parts,
        ..
    } = tree;
    let mut found = VecDeque::with_capacity(alloc, parts.len())?;
    for part in parts {
        let (own, next) = drive_part(ground, &plan, predictor, part)?;
        predictor = next;
        found.push_back(own)?;
    }
    Ok(Tree {
        plan,
        predictor,
        parts: Vec::new(alloc),
        found,
    })
}

// Those that all came back.
fn all_of(alloc: Global, ended: Vec<Result<Tree, Memory>>) -> Result<Vec<Tree>, Memory>
    ensures { IfOk result (λ trees. ended.items ≡ map (λ tree. Ok tree) trees.items) }
{
    let mut trees = Vec::with_capacity(alloc, ended.len())?;
    for tree in ended {
        trees.push(tree?)?;
    }
    Ok(trees)
}

// How many of the trees, the first ones, have a part to drive.
fn busy(trees: &[Tree]) -> usize
    ensures { result ≤ length trees.now }
{
    trees
        .iter()
        .position(|tree| tree.parts.is_empty())
        .unwrap_or(trees.len())
}

/// Drives the parts of all trees, side by side where threads can be made. No thread is made for a single tree, nor for
/// those that have no part.
pub(crate) fn drive_all<G: Gate, R: Threads + Wait + Sync>(
    ground: &Ground<'_, G, R>,
    mut trees: Vec<Tree>,
) -> Result<Vec<Tree>, Memory>
    requires compiled { All (λ tree. IsCompiled (arc_value tree.plan)) trees.items }
    requires setting { IsSetting ground.now.setting }
    requires parts { All (λ tree. AreDrivable (arc_value tree.plan) ground.now.stop
        tree.parts.items) trees.items }
    ensures names { IfOk result (λ end. map (λ tree. named tree.predictor) end.items
        ≡ map (λ tree. named tree.predictor) trees.items) }
    ensures plans { IfOk result (λ end. map (λ tree. tree.plan) end.items
        ≡ map (λ tree. tree.plan) trees.items) }
    ensures idle { IfOk result (λ end. All (λ tree. tree.parts.items ≡ []) end.items) }
    ensures found { IfOk result (λ end.
        map (λ tree. map (λ own. own.items) tree.found.items) end.items
        ≡ map (λ tree. map (λ part. moved_matches (arc_value tree.plan) (seen part))
        tree.parts.items) trees.items) }
{
    let others = trees.split_off(busy(&trees))?;
    let ended = thread::map_vec(
        ground.rt,
        trees,
        &|tree: Tree| -> Result<Tree, Memory>
            requires { IsSync R.row × IsCompiled (arc_value tree.plan)
                × IsSetting ground.now.setting
                × AreDrivable (arc_value tree.plan) ground.now.stop tree.parts.items }
            ensures name { IfOk result (λ end. named end.predictor ≡ named tree.predictor) }
            ensures plan { IfOk result (λ end. end.plan ≡ tree.plan) }
            ensures idle { IfOk result (λ end. end.parts.items ≡ []) }
            ensures found { IfOk result (λ end. map (λ own. own.items) end.found.items
                ≡ map (λ part. moved_matches (arc_value tree.plan) (seen part))
                tree.parts.items) }
        { drive_tree(ground, tree) },
    )?;
    let mut driven = all_of(ground.alloc, ended)?;
    for tree in others {
        driven.push(drive_tree(ground, tree)?)?;
    }
    Ok(driven)
}
