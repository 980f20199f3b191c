// The command `run` with several trees: the input is read to where reading stops, and its parts, which share no
// event, are driven side by side.
ghost use Rattle.std.specs.Prelude.{◌≡◌, ◌<◌, ◌≤◌, false, map, vec_len, IfOk};
ghost use Rattle.std.specs.Arc.{arc_value};
ghost use Rattle.std.specs.List.{All};
ghost use Rattle.sp_plan.specs.Compiled.{IsCompiled};
ghost use Rattle.sp_plan.specs.Lines.{text};
ghost use Rattle.sp_ports.specs.Giving.{AreGood};
ghost use Rattle.sp_parts.specs.Parts.{parts_of};
ghost use Rattle.sp_parts.specs.Seen.{seen};
ghost use Rattle.sp_parts.specs.Shifted.{shifted_all};
ghost use Rattle.sp_forest.specs.Alike.{RunsAs};
ghost use Rattle.sp_forest.specs.Driving.{ArePartsOf};
ghost use Rattle.sp_forest.specs.Setting.{IsSetting};
ghost use Rattle.sp_answer.specs.Outcome.{ending};
ghost use Rattle.sp_answer.specs.Promise.{filed, Served};
ghost use Rattle.sp_answer.specs.Ran.{outside, Ran};
ghost use Rattle.sp_answer.specs.Written.{WritesText};
ghost use Rattle.sp_load.specs.Places.{place_of};
ghost use Rattle.sp_commands.specs.Commands.{files_at, lateness};
ghost use Rattle.sp_commands.specs.Run.{text_by, IsPlanTold, ToldOutcome};
ghost use Rattle.sp_top.specs.Asked.{IsManner};
ghost use Rattle.sp_top.specs.RunEnds.{written_by};

use crate::asked::Run;
use crate::law;
use crate::lines::Lines;
use crate::plans::{Plans, plans_at};
use crate::workshop::Workshop;
use sp_answer::{Status, Written};
use sp_chance::Predictor;
use sp_cli::Speed;
use sp_commands::{Given, read_events, status_of_refusal, write_proofs, written_status};
use sp_forest::{Setting, Trees, drive_parts, find_parts};
use sp_instance::Gate;
use sp_io::{Files, Sink, Source};
use sp_parts::{Part, parts};
use sp_plan::{Event, Memory, Plan};
use sp_ports::Stop;
use sp_split::Why;
use std::alloc::Global;
use std::sync::{Arc, Wait};
use std::thread::Threads;

// How each tree is driven.
fn setting_of(speed: &Speed) -> Setting
    ensures { result ≡ record {
      instances = speed.now.instances;
      live = speed.now.live;
      batch = speed.now.batch;
    } }
{
    Setting {
        instances: speed.instances,
        live: speed.live,
        batch: speed.batch,
    }
}

// The parts of the events.
fn parts_of(
    alloc: Global,
    plan: &Arc<Plan>,
    events: &[Event],
    ended: bool,
) -> Result<Vec<Part>, Memory>
    requires compiled { IsCompiled (arc_value plan.now) }
    requires good { AreGood (arc_value plan.now) events.now }
    ensures { IfOk result (λ own.
        map seen own.items ≡ parts_of (arc_value plan.now) events.now ended) }
{
    parts(alloc, plan.clone()?, events, ended)
}

// Whether the output took all that was put, by why the driving ended.
fn written_by(why: Why) -> Written
    ensures { result ≡ written_by why }
{
    match why {
        Why::Refused => Written::Failed,
        _ => Written::All,
    }
}

// Writes the lines of the parts' matches, which the trees find.
fn write_parts<K: Sink, G: Gate, R: Threads + Wait + Sync>(
    shop: &Workshop<'_, G, R>,
    trees: Trees,
    parts: Vec<Part>,
    out: &mut K,
) -> Result<Written, Memory>
    requires compiled { IsCompiled (arc_value trees.plan) }
    requires alike { All (λ own. RunsAs (arc_value trees.plan) (arc_value own)) trees.own.items }
    requires own { vec_len trees.predictors ≤ vec_len trees.own }
    requires setting { IsSetting trees.setting }
    requires parts { ArePartsOf (arc_value trees.plan) trees.stop (map seen parts.items) }
    requires some { 0 < vec_len trees.predictors }
    ensures { let matches = shifted_all (arc_value trees.plan) (map seen parts.items) in
        WritesText (text (arc_value trees.plan) matches) (K.state out.old) (K.state out.new) result }
{
    let plan = trees.plan.clone()?;
    let taken = 0;
    let mut lines = Lines { plan, out, taken };
    let forest = drive_parts(shop.rt, shop.alloc, trees, parts, &mut lines, shop.gate);
    // The reference that comes back is used, which ties it to the one that was lent.
    let _sink = lines.into_sink();
    match forest {
        Ok(forest) => Ok(written_by(forest.why)),
        Err(memory) => Err(memory),
    }
}

// Tells of the events what the run asks for: the lines of the windows that they closed, or the proofs of these.
fn tell_parts<K: Sink, G: Gate, R: Threads + Wait + Sync>(
    shop: &Workshop<'_, G, R>,
    plans: Plans,
    given: Given,
    asked: Run<'_>,
    predictors: Vec<Box<dyn Predictor>>,
    out: &mut K,
) -> Result<Written, Memory>
    requires compiled { IsCompiled (arc_value plans.plan) }
    requires alike { All (λ own. RunsAs (arc_value plans.plan) (arc_value own)) plans.own.items }
    requires own { vec_len predictors ≤ vec_len plans.own }
    requires good { AreGood (arc_value plans.plan) given.events.items }
    requires manner { IsManner asked.manner }
    requires some { 0 < vec_len predictors }
    ensures { let told = text_by asked.entry.proof in
        let text = told (arc_value plans.plan) given.events.items given.stop in
        WritesText text (K.state out.old) (K.state out.new) result }
{
    // the matches of the whole input are those of its parts
    law::parts_fall_apart();
    let Given { events, stop, .. } = given;
    let Plans { plan, own } = plans;
    let parts = parts_of(shop.alloc, &plan, &events, stop.is_end())?;
    let setting = setting_of(asked.manner.speed);
    let trees = Trees {
        plan: plan.clone()?,
        own,
        setting,
        stop,
        predictors,
    };
    if !asked.proof {
        // the parts have copies of them
        drop(events);
        return write_parts(shop, trees, parts, out);
    }
    let matches = find_parts(shop.rt, shop.alloc, trees, parts, shop.gate)?;
    write_proofs(shop.alloc, &plan, &events, stop, matches, out)
}

// Runs the plans over the input, part by part.
fn run_plans<S: Source, K: Sink, G: Gate, R: Threads + Wait + Sync>(
    shop: &Workshop<'_, G, R>,
    plans: Plans,
    asked: Run<'_>,
    predictors: Vec<Box<dyn Predictor>>,
    input: &mut S,
    out: &mut K,
) -> Status
    requires compiled { IsCompiled (arc_value plans.plan) }
    requires alike { All (λ own. RunsAs (arc_value plans.plan) (arc_value own)) plans.own.items }
    requires own { vec_len predictors ≤ vec_len plans.own }
    requires manner { IsManner asked.manner }
    requires some { 0 < vec_len predictors }
    requires not_ended { (S.state input.old).ended ≡ false }
    ensures { Ran (IsPlanTold (text_by asked.entry.proof) (arc_value plans.plan)
        (lateness asked.entry.manner.late.slack asked.entry.manner.late.rule))
        (outside (S.state input.old) (K.state out.old))
        (outside (S.state input.new) (K.state out.new))
        (ending result) }
{
    let Ok(given) = read_events(shop.alloc, &plans.plan, asked.manner.late, input) else {
        return Status::Memory;
    };
    let status = given.status;
    let written = tell_parts(shop, plans, given, asked, predictors, out);
    written_status(status, written)
}

/// Runs the query that stands there over the input, by as many trees as there are predictors.
pub(crate) fn run_by_parts<S: Source, F: Files, K: Sink, G: Gate, R: Threads + Wait + Sync>(
    shop: &Workshop<'_, G, R>,
    asked: Run,
    predictors: Vec<Box<dyn Predictor>>,
    input: &mut S,
    files: &mut F,
    out: &mut K,
) -> Status
    requires manner { IsManner asked.manner }
    requires some { 0 < vec_len predictors }
    requires not_ended { (S.state input.old).ended ≡ false }
    ensures { Served (files_at (place_of asked.entry.place))
        (ToldOutcome (text_by asked.entry.proof) (place_of asked.entry.place)
        (lateness asked.entry.manner.late.slack asked.entry.manner.late.rule))
        (filed (F.held files.old) (F.faults files.old))
        (filed (F.held files.new) (F.faults files.new))
        (outside (S.state input.old) (K.state out.old))
        (outside (S.state input.new) (K.state out.new))
        (ending result) }
{
    match plans_at(shop.alloc, asked.place, predictors.len(), files) {
        Ok(plans) => run_plans(shop, plans, asked, predictors, input, out),
        Err(refusal) => status_of_refusal(refusal),
    }
}
