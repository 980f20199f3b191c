// Parts of an input, driven side by side.
ghost use Rattle.std.specs.Prelude.{◌≡◌, ◌≢◌, ◌⊎◌, ◌<◌, ◌≤◌, ◌+◌, [], length, map, vec_len, IfOk, OnErr};
ghost use Rattle.std.specs.Arc.{arc_value};
ghost use Rattle.std.specs.List.{All, list_all};
ghost use Rattle.std.specs.VecDeque.{deque_len};
ghost use Rattle.sp_io.specs.Outside.{Rose};
ghost use Rattle.sp_plan.specs.Compiled.{IsCompiled};
ghost use Rattle.sp_plan.specs.declared.plan.Plan.{Plan};
ghost use Rattle.sp_ports.specs.Taking.{Took, TookFirst};
ghost use Rattle.sp_split.specs.Driving.{FailedWithin};
ghost use Rattle.sp_split.specs.declared.ended.Why.TheVariants as w;
ghost use Rattle.sp_forest.specs.Alike.{RunsAs};
ghost use Rattle.sp_forest.specs.Drivable.{AreDrivable, DroveFirst};
ghost use Rattle.sp_forest.specs.Driving.{ArePartsOf, end_of};
ghost use Rattle.sp_parts.specs.Seen.{seen};
ghost use Rattle.sp_forest.specs.Setting.{IsSetting};
ghost use Rattle.sp_parts.specs.Shifted.{shifted_all};

use crate::dealing::{deal_round, gather};
use crate::forest::{Forest, Trees};
use crate::ground::{Ground, ground_of};
use crate::law;
use crate::listing::list_parts;
use crate::putting::put_parts;
use crate::tree::{Tree, drive_all, predictors_of, trees_of};
use sp_instance::Gate;
use sp_parts::Part;
use sp_plan::{Match, Memory};
use sp_ports::{OutFault, Outlet, Stop};
use sp_split::Why;
use std::alloc::{AllocError, Global};
use std::collections::VecDeque;
use std::sync::Wait;
use std::thread::Threads;

// Whether no later event can join the last window of any of these parts.
fn all_closed(parts: &[Part]) -> bool
    ensures { result ≡ list_all (λ part. part.closed) parts.now }
{
    parts.iter().all(|part| part.closed)
}

// Why it ends where the matches of all these parts are taken.
fn end_of(parts: &[Part], stop: Stop) -> Why
    ensures { result ≡ end_of stop (map seen parts.now) }
{
    if all_closed(parts) {
        Why::Whole
    } else {
        Why::Stopped(stop)
    }
}

// The next round: deals the next parts, drives them, and gathers what was found, in the order of the parts.
fn round<G: Gate, R: Threads + Wait + Sync>(
    ground: &Ground<'_, G, R>,
    mut trees: Vec<Tree>,
    waiting: &mut VecDeque<Part>,
) -> Result<(Vec<Tree>, Vec<Vec<Match>>), Memory>
    requires compiled { All (λ tree. IsCompiled (arc_value tree.plan)) trees.items }
    requires setting { IsSetting ground.now.setting }
    requires parts { All (λ tree. AreDrivable (arc_value tree.plan) ground.now.stop
        waiting.old.items) trees.items }
    requires trees { 0 < vec_len trees }
    requires idle { All (λ tree. tree.parts.items ≡ []) trees.items }
    requires some { 0 < deque_len waiting.old }
    ensures found { IfOk result (λ end. (q : Plan)
        → All (λ tree. RunsAs q (arc_value tree.plan)) trees.items
        → DroveFirst q waiting.old.items waiting.new.items (map (λ own. own.items) end.1.items)) }
    ensures fewer { IfOk result (λ end. deque_len waiting.new < deque_len waiting.old) }
    ensures names { IfOk result (λ end. map (λ tree. named tree.predictor) end.0.items
        ≡ map (λ tree. named tree.predictor) trees.items) }
    ensures plans { IfOk result (λ end. map (λ tree. tree.plan) end.0.items
        ≡ map (λ tree. tree.plan) trees.items) }
    ensures idle { IfOk result (λ end. All (λ tree. tree.parts.items ≡ []) end.0.items) }
{
    let groups = deal_round(waiting, &mut trees)?;
    let mut trees = drive_all(ground, trees)?;
    let found = gather(ground.alloc, &mut trees, groups)?;
    Ok((trees, found))
}

/// Drives the parts of an input side by side, in trees of their own, as many as there are predictors, and puts their
/// matches, in order, as those of the whole input. The plan is compiled, each tree's own one finds what it does, the
/// parts are those of some events that an engine takes, and there is a predictor. `Whole` comes exactly where all
/// matches were taken and each part is closed; `Stopped`, with the reason for which reading ended, exactly where all
/// were taken and the last part is open; `Refused` only where the outlet's count of faults rose, and then no further
/// match was put. For the first two the predictors come back, in their places and with their names. After want of
/// memory the outlet took the first matches, and has no fault more.
///
/// Besides, and no clause says so: each group of as many parts as there are trees is driven side by side, where
/// threads can be made, a part by a core and by the predictor of its place in the group; several groups of small parts
/// are driven together.
pub fn drive_parts<O: Outlet, G: Gate, R: Threads + Wait + Sync>(
    rt: &R,
    alloc: Global,
    trees: Trees,
    parts: Vec<Part>,
    outlet: &mut O,
    gate: &G,
) -> Result<Forest, Memory>
    requires compiled { IsCompiled (arc_value trees.plan) }
    requires alike { All (λ own. RunsAs (arc_value trees.plan) (arc_value own)) trees.own.items }
    requires own { vec_len trees.predictors ≤ vec_len trees.own }
    requires setting { IsSetting trees.setting }
    requires parts { ArePartsOf (arc_value trees.plan) trees.stop (map seen parts.items) }
    requires some { 0 < vec_len trees.predictors }
    requires outlet_plan { O.plan outlet.old ≡ arc_value trees.plan }
    ensures whole { IfOk result (λ forest.
        (forest.why ≡ end_of trees.stop (map seen parts.items)) ⊎ (forest.why ≡ w.Refused)) }
    ensures took { IfOk result (λ forest. forest.why ≢ w.Refused
        → Took (arc_value trees.plan) (shifted_all (arc_value trees.plan) (map seen parts.items))
        (O.state outlet.old) (O.state outlet.new)) }
    ensures matches { IfOk result (λ forest. forest.why ≢ w.Refused
        → forest.matches ≡ length (shifted_all (arc_value trees.plan) (map seen parts.items))) }
    ensures names { IfOk result (λ forest. forest.why ≢ w.Refused
        → map (λ one. named one) forest.predictors.items
        ≡ map (λ one. named one) trees.predictors.items) }
    ensures refused { IfOk result (λ forest. forest.why ≡ w.Refused
        → (failed : FailedWithin (arc_value trees.plan)
        (shifted_all (arc_value trees.plan) (map seen parts.items))
        (O.state outlet.old) (O.state outlet.new)) × (forest.matches ≡ length failed.first)) }
    ensures rose { IfOk result (λ forest. forest.why ≡ w.Refused
        → Rose (O.state outlet.old).faults (O.state outlet.new).faults) }
    ensures no_fault { IfOk result (λ forest. forest.why ≢ w.Refused
        → (O.state outlet.new).faults ≡ (O.state outlet.old).faults) }
    ensures short { OnErr result (TookFirst (arc_value trees.plan)
        (shifted_all (arc_value trees.plan) (map seen parts.items))
        (O.state outlet.old) (O.state outlet.new)) }
    ensures short_no_fault { OnErr result
        ((O.state outlet.new).faults ≡ (O.state outlet.old).faults) }
    ensures same { (O.plan outlet.new ≡ O.plan outlet.old)
        × (O.token outlet.new ≡ O.token outlet.old) }
{
    let ground = ground_of(rt, alloc, gate, &trees);
    // Laws: each part can be driven by itself, and all their matches numbered.
    law::parts_can_be_driven();
    let why = end_of(&parts, trees.stop);
    let mut standing = trees_of(alloc, trees)?;
    let mut waiting = VecDeque::from(parts);
    let mut matches = 0;
    'rounds: while !waiting.is_empty() {
        let (driven, found) = round(&ground, standing, &mut waiting)?;
        standing = driven;
        match put_parts(alloc, found, outlet, &mut matches) {
            Ok(()) => {}
            Err(OutFault::Memory) => return Err(AllocError),
            Err(OutFault::Failed) => {
                return Ok(Forest {
                    why: Why::Refused,
                    matches,
                    predictors: Vec::new(alloc),
                });
            }
        }
    }
    let predictors = predictors_of(alloc, standing)?;
    Ok(Forest {
        why,
        matches,
        predictors,
    })
}

/// The matches of the parts of an input, in order, as those of the whole input: the parts are driven side by side, as
/// `drive_parts` does, and no predictor comes back. The plan is compiled, each tree's own one finds what it does, the
/// parts are those of some events that an engine takes, and there is a predictor. Fails for want of memory alone.
pub fn find_parts<G: Gate, R: Threads + Wait + Sync>(
    rt: &R,
    alloc: Global,
    trees: Trees,
    parts: Vec<Part>,
    gate: &G,
) -> Result<Vec<Match>, Memory>
    requires compiled { IsCompiled (arc_value trees.plan) }
    requires alike { All (λ own. RunsAs (arc_value trees.plan) (arc_value own)) trees.own.items }
    requires own { vec_len trees.predictors ≤ vec_len trees.own }
    requires setting { IsSetting trees.setting }
    requires parts { ArePartsOf (arc_value trees.plan) trees.stop (map seen parts.items) }
    requires some { 0 < vec_len trees.predictors }
    ensures { IfOk result (λ found. found.items
        ≡ shifted_all (arc_value trees.plan) (map seen parts.items)) }
{
    let ground = ground_of(rt, alloc, gate, &trees);
    law::parts_can_be_driven();
    let mut standing = trees_of(alloc, trees)?;
    let mut waiting = VecDeque::from(parts);
    let mut all = Vec::new(alloc);
    'rounds: while !waiting.is_empty() {
        let (driven, found) = round(&ground, standing, &mut waiting)?;
        standing = driven;
        list_parts(found, &mut all)?;
    }
    Ok(all)
}
