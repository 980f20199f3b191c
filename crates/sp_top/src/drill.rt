// The command `drill`: its query over generated rows, by the speculative engine.
ghost use Rattle.std.specs.Prelude.{◌≡◌, ◌⊎◌, ◌≤◌, true, false, length, string_bytes, Some, IfOk, IfErr};
ghost use Rattle.sp_base.specs.Limits.{event_limit, live_limit, batch_limit};
ghost use Rattle.sp_io.specs.ByteSource.{source_state};
ghost use Rattle.sp_io.specs.Outside.{SourceState};
ghost use Rattle.sp_plan.specs.Windows.{windows};
ghost use Rattle.sp_gen.specs.Generated.{generated};
ghost use Rattle.sp_load.specs.Queries.{IsPlanFor};
ghost use Rattle.sp_answer.specs.Outcome.{ending};
ghost use Rattle.sp_answer.specs.Ran.{outside, Made};
ghost use Rattle.sp_cli.specs.Commands.{speed_seen};
ghost use Rattle.sp_drill.specs.Query.{drill_query};
ghost use Rattle.sp_commands.specs.Drill as specs;
ghost use Rattle.sp_commands.specs.Drill.{DrillOutcome, WritesSummary};
ghost use Rattle.sp_top.specs.Summing.{CanSum, SumsUp};
ghost use Rattle.sp_top.specs.Report.{ReportsDrill, WhereDone};

use crate::asked::Manner;
use crate::law;
use crate::run::run_plan;
use crate::workshop::{CommandEnd, Workshop};
use sp_answer::Status;
use sp_base::Numbers;
use sp_cli::Speed;
use sp_commands::{Lateness, status_of_refusal};
use sp_core::Core;
use sp_drill::query;
use sp_emit::summary_text;
use sp_gen::generate;
use sp_instance::Gate;
use sp_io::{ByteSource, Discard, Sink};
use sp_load::{QueryText, Refusal, plan_of_text};
use sp_plan::{Memory, Plan};
use sp_slack::LateRule;
use sp_split::Crew;
use std::alloc::{AllocError, Global};
use std::sync::Wait;
use std::thread::Threads;

// No row of a drill is late.
const PUNCTUAL: Lateness = Lateness {
    slack: 0,
    rule: LateRule::Refuse,
};

// The plan of the drill's query. It has one, so nothing but want of memory refuses it.
fn drill_plan(alloc: Global) -> Result<Plan, Refusal>
    ensures plan { IfOk result (IsPlanFor drill_query) }
    ensures memory { IfErr result (λ refusal. refusal ≡ Refusal.Memory) }
{
    // the query has a plan, and no text has both a plan and a fault
    law::drill_query_has_plan();
    law::one_reading();
    plan_of_text(alloc, &QueryText::Word(query()))
}

// What a drill runs: its plan, and its rows as an input.
#[derive(Drop)]
struct Task {
    plan: Plan,
    rows: ByteSource,
}

// The rows as an input.
fn rows_of(alloc: Global, events: u32, seed: u32) -> Result<ByteSource, Memory>
    ensures { IfOk result (λ rows. source_state rows
        ≡ record { left = Some (generated events seed); faults = 0; ended = false }) }
{
    let rows = generate(alloc, events, seed)?;
    Ok(ByteSource::new(rows.into_bytes()))
}

// The plan and the rows. Nothing but want of memory refuses them.
fn task_of(alloc: Global, events: u32, seed: u32) -> Result<Task, Refusal>
    ensures plan { IfOk result (λ task. IsPlanFor drill_query task.plan) }
    ensures rows { IfOk result (λ task. source_state task.rows
        ≡ record { left = Some (generated events seed); faults = 0; ended = false }) }
    ensures memory { IfErr result (λ refusal. refusal ≡ Refusal.Memory) }
{
    let Ok(rows) = rows_of(alloc, events, seed) else {
        return Err(Refusal::Memory);
    };
    match drill_plan(alloc) {
        Ok(plan) => Ok(Task { plan, rows }),
        Err(refusal) => Err(refusal),
    }
}

// Runs the drill's query over the generated rows, and keeps none of its lines.
fn run_rows<G: Gate, R: Threads + Wait + Sync>(
    shop: &Workshop<'_, G, R>,
    events: u32,
    seed: u32,
    speed: &Speed,
    crew: Crew,
) -> CommandEnd
    requires few { events ≤ event_limit }
    requires live { (1 ≤ speed.now.live) × (speed.now.live ≤ live_limit) }
    requires batch { (1 ≤ speed.now.batch) × (speed.now.batch ≤ batch_limit) }
    requires instances { speed.now.instances ≤ 16 }
    ensures status { (result.status ≡ Status.Done) ⊎ (result.status ≡ Status.Memory) }
    ensures report { WhereDone (ReportsDrill events seed (speed_seen speed.now))
        result.status result.ended }
{
    // each plan of the query reads the rows to their end, and a row stays a row whatever comes behind
    law::drill_query_has_plan();
    law::generated_rows_are_read();
    law::rows_stay();
    // without slack a run reads as where times may not go back
    law::loose_is_reading();
    match task_of(shop.alloc, events, seed) {
        Ok(task) => {
            let Task { plan, mut rows } = task;
            let manner = Manner {
                speed,
                late: PUNCTUAL,
            };
            run_plan(shop, plan, manner, crew, &mut rows, &mut Discard)
        }
        Err(refusal) => CommandEnd::of(status_of_refusal(refusal)),
    }
}

// How many numbers there are. Fails where they are more than a `u32` counts, as for want of memory.
fn count_of(numbers: &Numbers) -> Result<u32, Memory>
    ensures { IfOk result (λ count. count ≡ length numbers.now.list) }
{
    u32::try_from(numbers.list().len()).or(Err(AllocError))
}

// The summary of a run whose windows are all finished.
fn summary_of(alloc: Global, core: &Core) -> Result<String, Memory>
    requires few { length core.now.machine.events ≤ event_limit }
    requires finished { core.now.machine.finished
        ≡ length (windows core.now.plan core.now.machine.events true) }
    ensures { IfOk result (λ line.
        string_bytes line ≡ specs.summary_of core.now.plan core.now.machine.events) }
{
    let events = core.events().len() as u32;
    let windows = core.finished();
    let matches = core.emitted().len() as u64;
    let consumed = count_of(core.consumed())?;
    summary_text(alloc, events, windows, matches, consumed)
}

// Writes the summary of a run that was done, by one call.
fn write_summary<K: Sink>(alloc: Global, core: &Core, out: &mut K) -> Status
    requires few { length core.now.machine.events ≤ event_limit }
    requires finished { core.now.machine.finished
        ≡ length (windows core.now.plan core.now.machine.events true) }
    ensures { WritesSummary (specs.summary_of core.now.plan core.now.machine.events)
        (K.state out.old) (K.state out.new) result }
{
    let Ok(line) = summary_of(alloc, core) else {
        return Status::Memory;
    };
    match out.write_all(line.as_bytes()) {
        Ok(()) => Status::Done,
        Err(_) => Status::Write,
    }
}

// Writes the summary of a run that was done, and answers how that went; what the run ended with stays.
fn sum_up<K: Sink>(alloc: Global, answer: &mut CommandEnd, out: &mut K)
    requires ran { WhereDone CanSum answer.old.status answer.old.ended }
    ensures ended { answer.new.ended ≡ answer.old.ended }
    ensures status { SumsUp answer.old.status answer.old.ended
        (K.state out.old) (K.state out.new) answer.new.status }
{
    match (answer.status, &answer.ended) {
        (Status::Done, Some(ended)) => answer.status = write_summary(alloc, &ended.core, out),
        _ => {}
    }
}

/// Runs the drill's query over so many generated rows of this seed, and writes the summary of the run.
pub(crate) fn drill<K: Sink, G: Gate, R: Threads + Wait + Sync>(
    shop: &Workshop<'_, G, R>,
    events: u32,
    seed: u32,
    speed: &Speed,
    crew: Crew,
    out: &mut K,
) -> CommandEnd
    requires few { events ≤ event_limit }
    requires live { (1 ≤ speed.now.live) × (speed.now.live ≤ live_limit) }
    requires batch { (1 ≤ speed.now.batch) × (speed.now.batch ≤ batch_limit) }
    requires instances { speed.now.instances ≤ 16 }
    ensures made { (input : SourceState) → Made (λ bytes ended. DrillOutcome events seed)
        (outside input (K.state out.old)) (outside input (K.state out.new)) (ending result.status) }
    ensures report { WhereDone (ReportsDrill events seed (speed_seen speed.now))
        result.status result.ended }
{
    // the query has a plan, and its run has read as many events as there are rows
    law::drill_query_has_plan();
    law::generated_rows_are_read();
    let mut answer = run_rows(shop, events, seed, speed, crew);
    sum_up(shop.alloc, &mut answer, out);
    answer
}
