// The command `run`: a query over the input, by the speculative engine.
ghost use Rattle.std.specs.Prelude.{◌≡◌, ◌≤◌, pos, ◌≤ℤ◌, false, IfOk};
ghost use Rattle.std.specs.Arc.{arc_value};
ghost use Rattle.sp_base.specs.Limits.{live_limit, batch_limit, number_limit};
ghost use Rattle.sp_io.specs.Outside.{SourceState};
ghost use Rattle.sp_plan.specs.Compiled.{IsCompiled};
ghost use Rattle.sp_core.specs.Running.{begun};
ghost use Rattle.sp_intake.specs.Asked.{plan_in, standing};
ghost use Rattle.sp_answer.specs.Outcome.{ending};
ghost use Rattle.sp_answer.specs.Promise.{filed, Served};
ghost use Rattle.sp_answer.specs.Ran.{outside, Ran};
ghost use Rattle.sp_cli.specs.Commands.{speed_seen};
ghost use Rattle.sp_load.specs.Places.{place_of};
ghost use Rattle.sp_commands.specs.Commands.{files_at, lateness};
ghost use Rattle.sp_top.specs.Asked.{IsManner};
ghost use Rattle.sp_top.specs.Coming.{late_in, AsksInTime, ComesFrom};
ghost use Rattle.sp_top.specs.RunEnds as ends;
ghost use Rattle.sp_top.specs.Prompt.{AskedInTime, IsPrompt};
ghost use Rattle.sp_top.specs.Report.{ReportsPlace, ReportsPlan, WhereDone};
ghost use Rattle.sp_commands.specs.Run.{text_by, IsPlanRun, IsPlanTold, RunOutcome, ToldOutcome};

use crate::asked::{Manner, Run};
use crate::law;
use crate::lines::Lines;
use crate::listing::list_plan;
use crate::workshop::{CommandEnd, Workshop};
use sp_answer::Status;
use sp_commands::{Lateness, late_status, shared, status_of_refusal};
use sp_core::Core;
use sp_instance::Gate;
use sp_intake::{EventReader, Input};
use sp_io::{Files, Sink, Source};
use sp_load::plan_at;
use sp_plan::{Memory, Plan};
use sp_ports::Stop;
use sp_slack::LateRule;
use sp_split::{Crew, Why, drive};
use std::alloc::Global;
use std::sync::{Arc, Wait};
use std::thread::Threads;

// The status of a run that ended so, where so many late events were passed over, or the first was refused.
fn status_of_end(rule: LateRule, late: u32, why: Why) -> Status
    ensures { result ≡ ends.status_of_end rule late why }
{
    match why {
        Why::Whole => late_status(rule, late, Stop::End),
        Why::Stopped(stop) => late_status(rule, late, stop),
        Why::Refused => Status::Write,
        Why::Memory => Status::Memory,
    }
}

// What a run of a plan begins with: the plan, a core before its first step, and what reads the input.
#[derive(Drop)]
struct Start {
    plan: Arc<Plan>,
    core: Core,
    events: EventReader,
}

// What reads the input of a plan. Where no event may be late nothing is held back.
fn reader_of(alloc: Global, plan: &Arc<Plan>, late: Lateness) -> Result<EventReader, Memory>
    requires compiled { IsCompiled (arc_value plan.now) }
    requires low { pos 0 ≤ℤ late.slack }
    requires high { late.slack ≤ℤ pos number_limit }
    ensures fresh { IfOk result (λ events. (source : SourceState) → source.ended ≡ false
        → ComesFrom (arc_value plan.now) (lateness late.slack late.rule) source
        (standing source events)) }
    ensures unasked { IfOk result (λ events. (source : SourceState) → source.ended ≡ false
        → AsksInTime (arc_value plan.now) (lateness late.slack late.rule) source
        (standing source events)) }
    ensures plan_in { IfOk result (λ events. plan_in events ≡ arc_value plan.now) }
    ensures none { IfOk result (λ events. events.stops ≡ 0) }
{
    // without slack events are those of times that may not go back
    law::loose_is_reading();
    if late.is_punctual() {
        return EventReader::new(alloc, plan);
    }
    EventReader::within(alloc, plan, late.slack, late.rule)
}

// All of it for a plan, the most versions that may be live, and how late events may come.
fn start_of(alloc: Global, plan: Plan, live: u32, late: Lateness) -> Result<Start, Memory>
    requires compiled { IsCompiled plan }
    requires some { 1 ≤ live }
    requires most { live ≤ live_limit }
    requires low { pos 0 ≤ℤ late.slack }
    requires high { late.slack ≤ℤ pos number_limit }
    ensures plan { IfOk result (λ start. arc_value start.plan ≡ plan) }
    ensures core { IfOk result (λ start. start.core ≡ begun plan live) }
    ensures fresh { IfOk result (λ start. (source : SourceState) → source.ended ≡ false
        → ComesFrom plan (lateness late.slack late.rule) source (standing source start.events)) }
    ensures unasked { IfOk result (λ start. (source : SourceState) → source.ended ≡ false
        → AsksInTime plan (lateness late.slack late.rule) source (standing source start.events)) }
    ensures plan_in { IfOk result (λ start. plan_in start.events ≡ plan) }
    ensures none { IfOk result (λ start. start.events.stops ≡ 0) }
{
    let plan = shared(alloc, plan)?;
    let core = Core::new(alloc, plan.clone()?, live)?;
    let events = reader_of(alloc, &plan, late)?;
    Ok(Start { plan, core, events })
}

// Drives a core from the input to the output.
fn drive_core<S: Source, K: Sink, G: Gate, R: Threads + Wait + Sync>(
    shop: &Workshop<'_, G, R>,
    core: Core,
    manner: Manner<'_>,
    crew: Crew,
    input: &mut Input<'_, S>,
    lines: &mut Lines<'_, K>,
) -> CommandEnd
    requires fresh { core ≡ begun core.plan core.bound }
    requires bound { core.bound ≡ manner.speed.now.live }
    requires batch { (1 ≤ manner.speed.now.batch) × (manner.speed.now.batch ≤ batch_limit) }
    requires instances { manner.speed.now.instances ≤ 16 }
    requires compiled { IsCompiled core.plan }
    requires plan_in { plan_in input.old.events ≡ core.plan }
    requires unstopped { input.old.events.stops ≡ 0 }
    requires plan_out { arc_value lines.old.plan ≡ core.plan }
    ensures ran { (origin : SourceState)
        → ComesFrom core.plan (lateness manner.entry.late.slack manner.entry.late.rule) origin
        (standing (S.state input.old.source.now) input.old.events)
        → Ran (IsPlanRun core.plan (lateness manner.entry.late.slack manner.entry.late.rule))
        (outside origin (K.state lines.old.out.now))
        (outside (S.state input.new.source.now) (K.state lines.new.out.now))
        (ending result.status) }
    ensures report { (origin : SourceState)
        → ComesFrom core.plan (lateness manner.entry.late.slack manner.entry.late.rule) origin
        (standing (S.state input.old.source.now) input.old.events)
        → WhereDone (ReportsPlan core.plan
        (lateness manner.entry.late.slack manner.entry.late.rule) (speed_seen manner.entry.speed.now)
        origin.left (S.state input.new.source.now).left) result.status result.ended }
    ensures prompt { (origin : SourceState)
        → AsksInTime core.plan (lateness manner.entry.late.slack manner.entry.late.rule) origin
        (standing (S.state input.old.source.now) input.old.events)
        → AskedInTime (IsPlanRun core.plan
        (lateness manner.entry.late.slack manner.entry.late.rule))
        (outside origin (K.state lines.old.out.now))
        (outside (S.state input.new.source.now) (K.state lines.new.out.now)) }
    ensures same_in { input.new.source.ghost_name ≡ input.old.source.ghost_name }
    ensures same_out { lines.new.out.ghost_name ≡ lines.old.out.ghost_name }
{
    let Manner { speed, late } = manner;
    let (instances, batch) = (speed.instances, speed.batch);
    let Workshop { rt, alloc, gate } = shop;
    // while the input has not ended, the matches so far begin those of any longer input
    law::growth();
    match drive(
        *rt, *alloc, core, instances, batch, crew, input, lines, *gate,
    ) {
        Ok(ended) => {
            law::steps_lead_to(&ended.core);
            let status = status_of_end(late.rule, input.late(), ended.why);
            let ended = Some(ended);
            CommandEnd { status, ended }
        }
        Err(_) => CommandEnd::of(Status::Memory),
    }
}

/// Runs a plan over the input, and tells its lines.
pub(crate) fn run_plan<S: Source, K: Sink, G: Gate, R: Threads + Wait + Sync>(
    shop: &Workshop<'_, G, R>,
    plan: Plan,
    manner: Manner<'_>,
    crew: Crew,
    input: &mut S,
    out: &mut K,
) -> CommandEnd
    requires compiled { IsCompiled plan }
    requires manner { IsManner manner }
    requires not_ended { (S.state input.old).ended ≡ false }
    ensures ran { Ran (IsPlanRun plan (lateness manner.entry.late.slack manner.entry.late.rule))
        (outside (S.state input.old) (K.state out.old))
        (outside (S.state input.new) (K.state out.new))
        (ending result.status) }
    ensures report { WhereDone (ReportsPlan plan
        (lateness manner.entry.late.slack manner.entry.late.rule) (speed_seen manner.entry.speed.now)
        (S.state input.old).left (S.state input.new).left) result.status result.ended }
    ensures prompt { IsPrompt (IsPlanRun plan (lateness manner.entry.late.slack manner.entry.late.rule))
        (outside (S.state input.old) (K.state out.old))
        (outside (S.state input.new) (K.state out.new)) }
{
    let Ok(start) = start_of(shop.alloc, plan, manner.speed.live, manner.late) else {
        return CommandEnd::of(Status::Memory);
    };
    let Start { plan, core, events } = start;
    let mut reading = Input::over(input, events);
    let taken = 0;
    let mut lines = Lines { plan, out, taken };
    let answer = drive_core(shop, core, manner, crew, &mut reading, &mut lines);
    // The references that come back are used, which ties them to those that were lent.
    let _source = reading.into_source();
    let _sink = lines.into_sink();
    answer
}

// Runs a plan over the input, and tells of it what is asked for.
fn tell_plan<S: Source, K: Sink, G: Gate, R: Threads + Wait + Sync>(
    shop: &Workshop<'_, G, R>,
    plan: Plan,
    asked: Run<'_>,
    crew: Crew,
    input: &mut S,
    out: &mut K,
) -> CommandEnd
    requires compiled { IsCompiled plan }
    requires manner { IsManner asked.manner }
    requires not_ended { (S.state input.old).ended ≡ false }
    ensures ran { Ran (IsPlanTold (text_by asked.entry.proof) plan
        (lateness asked.entry.manner.late.slack asked.entry.manner.late.rule))
        (outside (S.state input.old) (K.state out.old))
        (outside (S.state input.new) (K.state out.new))
        (ending result.status) }
    ensures report { WhereDone (ReportsPlan plan
        (lateness asked.entry.manner.late.slack asked.entry.manner.late.rule)
        (speed_seen asked.entry.manner.speed.now)
        (S.state input.old).left (S.state input.new).left) result.status result.ended }
    ensures prompt { asked.entry.proof ≡ false → IsPrompt (IsPlanRun plan
        (lateness asked.entry.manner.late.slack asked.entry.manner.late.rule))
        (outside (S.state input.old) (K.state out.old))
        (outside (S.state input.new) (K.state out.new)) }
{
    if asked.proof {
        list_plan(shop, plan, asked.manner, crew, input, out)
    } else {
        run_plan(shop, plan, asked.manner, crew, input, out)
    }
}

/// Runs the query that stands there over the input, by the speculative engine.
pub(crate) fn run<S: Source, F: Files, K: Sink, G: Gate, R: Threads + Wait + Sync>(
    shop: &Workshop<'_, G, R>,
    asked: Run,
    crew: Crew,
    input: &mut S,
    files: &mut F,
    out: &mut K,
) -> CommandEnd
    requires manner { IsManner asked.manner }
    requires not_ended { (S.state input.old).ended ≡ false }
    ensures served { Served (files_at (place_of asked.entry.place))
        (ToldOutcome (text_by asked.entry.proof) (place_of asked.entry.place)
        (lateness asked.entry.manner.late.slack asked.entry.manner.late.rule))
        (filed (F.held files.old) (F.faults files.old))
        (filed (F.held files.new) (F.faults files.new))
        (outside (S.state input.old) (K.state out.old))
        (outside (S.state input.new) (K.state out.new))
        (ending result.status) }
    ensures report { WhereDone (ReportsPlace (F.held files.old) (place_of asked.entry.place)
        (lateness asked.entry.manner.late.slack asked.entry.manner.late.rule)
        (speed_seen asked.entry.manner.speed.now) (S.state input.old).left (S.state input.new).left)
        result.status result.ended }
    ensures prompt { asked.entry.proof ≡ false → IsPrompt (RunOutcome (place_of asked.entry.place)
        (lateness asked.entry.manner.late.slack asked.entry.manner.late.rule) (F.held files.old))
        (outside (S.state input.old) (K.state out.old))
        (outside (S.state input.new) (K.state out.new)) }
{
    match plan_at(shop.alloc, asked.place, files) {
        Ok(plan) => tell_plan(shop, plan, asked, crew, input, out),
        Err(refusal) => CommandEnd::of(status_of_refusal(refusal)),
    }
}
