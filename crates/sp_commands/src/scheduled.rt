// The command `trace`: the machine over the input, as a schedule steps it.
ghost use Rattle.std.specs.Prelude.{◌≡◌, ◌≤◌, [], ◌∷◌, ◌++◌, false, length, IfOk, IfErr, OnOk};
ghost use Rattle.std.specs.Arc.{arc_value};
ghost use Rattle.std.specs.List.{All};
ghost use Rattle.sp_base.specs.Limits.{query_limit, schedule_limit, live_limit};
ghost use Rattle.sp_plan.specs.Compiled.{IsCompiled};
ghost use Rattle.sp_plan.specs.Events.{AllFit, NeverGoesBack};
ghost use Rattle.sp_sched.specs.Schedules.{CanStand, IsSchedule};
ghost use Rattle.sp_trace.specs.Traced.{after, joined, lines_for, lines_from, traced};
ghost use Rattle.sp_load.specs.Places.{place_of, text_of};
ghost use Rattle.sp_load.specs.Queries.{IsPlanFor};
ghost use Rattle.sp_answer.specs.Outcome.{ending};
ghost use Rattle.sp_answer.specs.Promise.{filed, Served};
ghost use Rattle.sp_answer.specs.Ran.{outside, Ran};
ghost use Rattle.sp_answer.specs.Written.{WritesText};
ghost use Rattle.sp_commands.specs.Commands.{files_at};
ghost use Rattle.sp_commands.specs.Texts.{AnswersTexts};
ghost use Rattle.sp_commands.specs.Trace.{IsPlanTrace, RefusesTrace, TextsOutcome, TraceOutcome};

use crate::asked::Trace;
use crate::ends::{status_of_refusal, written_status};
use crate::given::in_time;
use crate::output::write_texts;
use crate::texts::{Texts, load_texts};
use crate::windowed::shared;
use sp_answer::{Status, Written};
use sp_base::limits::SCHEDULE_LIMIT;
use sp_io::{Files, Sink, Source};
use sp_load::plan_of_text;
use sp_plan::{Event, Memory, Plan};
use sp_sched::{SchedFault, TraceStep, read_schedule};
use sp_trace::Tracer;
use std::alloc::Global;
use std::sync::Arc;

// The plan of the query, and the steps of the schedule.
#[derive(Drop)]
struct Task {
    plan: Plan,
    steps: Vec<TraceStep>,
}

// What the texts ask for, or the status that refuses them: a fault of the query counts before a bad line
// of the schedule.
fn task_of(alloc: Global, texts: &Texts) -> Result<Task, Status>
    requires short { length (text_of texts.now.query) ≤ query_limit }
    requires few { length texts.now.content.items ≤ schedule_limit }
    ensures plan { IfOk result (λ task. IsPlanFor (text_of texts.now.query) task.plan) }
    ensures steps { IfOk result (λ task. IsSchedule texts.now.content.items task.steps.items) }
    ensures refused { IfErr result
        (RefusesTrace (text_of texts.now.query) texts.now.content.items) }
{
    let plan = match plan_of_text(alloc, &texts.query) {
        Ok(plan) => plan,
        Err(refusal) => return Err(status_of_refusal(refusal)),
    };
    match read_schedule(alloc, &texts.content) {
        Ok(steps) => Ok(Task { plan, steps }),
        Err(SchedFault::BadStep { line }) => Err(Status::Schedule { line }),
        Err(SchedFault::Memory) => Err(Status::Memory),
    }
}

// Prints what a step of the schedule does.
fn print_step<K: Sink>(
    alloc: Global,
    tracer: &mut Tracer,
    step: &TraceStep,
    out: &mut K,
) -> Result<Written, Memory>
    requires can_stand { CanStand step.now }
    ensures text { WritesText (joined (lines_for tracer.old step.now))
        (K.state out.old) (K.state out.new) result }
    ensures ok { OnOk result (tracer.new ≡ after tracer.old step.now) }
{
    let lines = tracer.step(alloc, step)?;
    Ok(write_texts(&lines, out))
}

// Prints what each step does, one after another.
fn print_steps<K: Sink>(
    alloc: Global,
    tracer: &mut Tracer,
    steps: &[TraceStep],
    out: &mut K,
) -> Result<Written, Memory>
    requires steps { All CanStand steps.now }
    ensures { WritesText (joined (lines_from tracer.old steps.now))
        (K.state out.old) (K.state out.new) result }
{
    for step in steps {
        let written = print_step(alloc, tracer, step, out)?;
        match written {
            Written::All => {}
            Written::Failed => return Ok(Written::Failed),
        }
    }
    Ok(Written::All)
}

// Prints the run of a plan over all events, line by line.
fn print_trace<K: Sink>(
    alloc: Global,
    plan: Arc<Plan>,
    live: u32,
    events: Vec<Event>,
    steps: &[TraceStep],
    out: &mut K,
) -> Result<Written, Memory>
    requires compiled { IsCompiled (arc_value plan) }
    requires some { 1 ≤ live }
    requires most { live ≤ live_limit }
    requires fit { AllFit (arc_value plan) events.items }
    requires ordered { NeverGoesBack events.items }
    requires steps { All CanStand steps.now }
    ensures { let text = traced (arc_value plan) live events.items steps.now in
        WritesText text (K.state out.old) (K.state out.new) result }
{
    let mut tracer = Tracer::new(alloc, plan, live, events)?;
    print_steps(alloc, &mut tracer, steps, out)
}

// Reads the input whole, and prints the run of the task over its events where it was read to its end.
fn trace_task<S: Source, K: Sink>(
    alloc: Global,
    task: Task,
    live: u32,
    input: &mut S,
    out: &mut K,
) -> Status
    requires compiled { IsCompiled task.plan }
    requires some { 1 ≤ live }
    requires most { live ≤ live_limit }
    requires steps { All CanStand task.steps.items }
    requires not_ended { (S.state input.old).ended ≡ false }
    ensures { Ran (IsPlanTrace task.plan live task.steps.items)
        (outside (S.state input.old) (K.state out.old))
        (outside (S.state input.new) (K.state out.new))
        (ending result) }
{
    let Task { plan, steps } = task;
    let Ok(plan) = shared(alloc, plan) else {
        return Status::Memory;
    };
    let Ok(given) = in_time(alloc, &plan, input) else {
        return Status::Memory;
    };
    if !given.stop.is_end() {
        return given.status;
    }
    let written = print_trace(alloc, plan, live, given.events, &steps, out);
    written_status(given.status, written)
}

// Traces what the texts ask for.
fn trace_texts<S: Source, K: Sink>(
    alloc: Global,
    texts: &Texts,
    live: u32,
    input: &mut S,
    out: &mut K,
) -> Status
    requires short { length (text_of texts.now.query) ≤ query_limit }
    requires few { length texts.now.content.items ≤ schedule_limit }
    requires some { 1 ≤ live }
    requires most { live ≤ live_limit }
    requires not_ended { (S.state input.old).ended ≡ false }
    ensures { AnswersTexts (TextsOutcome (text_of texts.now.query) texts.now.content.items live)
        (outside (S.state input.old) (K.state out.old))
        (outside (S.state input.new) (K.state out.new))
        (ending result) }
{
    match task_of(alloc, texts) {
        Ok(task) => trace_task(alloc, task, live, input, out),
        Err(status) => status,
    }
}

/// Steps the machine over the input by the schedule, and prints what each of its lines does.
pub fn trace<S: Source, F: Files, K: Sink>(
    alloc: Global,
    asked: Trace,
    input: &mut S,
    files: &mut F,
    out: &mut K,
) -> Status
    requires some { 1 ≤ asked.live }
    requires most { asked.live ≤ live_limit }
    requires not_ended { (S.state input.old).ended ≡ false }
    ensures { let place = place_of asked.entry.place in
        let name = asked.entry.schedule.now in
        Served (files_at place ++ name ∷ []) (TraceOutcome place name asked.entry.live)
        (filed (F.held files.old) (F.faults files.old))
        (filed (F.held files.new) (F.faults files.new))
        (outside (S.state input.old) (K.state out.old))
        (outside (S.state input.new) (K.state out.new))
        (ending result) }
{
    let Trace {
        place,
        schedule,
        live,
    } = asked;
    match load_texts(alloc, place, schedule, SCHEDULE_LIMIT, files) {
        Ok(texts) => trace_texts(alloc, &texts, live, input, out),
        Err(refusal) => status_of_refusal(refusal),
    }
}
