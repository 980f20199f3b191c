ghost use Rattle.std.specs.Prelude.{◌≡◌, ◌≤◌, ◌⊎◌, [], ◌∷◌, map, string_bytes, IfOk, IfErr, OnOk, OnErr};
ghost use Rattle.std.specs.Arc.{arc_value};
ghost use Rattle.sp_base.specs.Limits.{live_limit};
ghost use Rattle.sp_plan.specs.Compiled.{IsCompiled};
ghost use Rattle.sp_plan.specs.Events.{AllFit, NeverGoesBack};
ghost use Rattle.sp_sched.specs.Schedules.{CanStand};
ghost use Rattle.sp_core.specs.Benched.{answered};
ghost use Rattle.sp_trace.specs.Keeping.{fed_after};
ghost use Rattle.sp_trace.specs.Told.{IsTold, IsTurnedDown};
ghost use Rattle.sp_trace.specs.Traced.{after, begun, lines_for, machine_step, next_event};

use crate::Memory;
use crate::answers::answer_lines;
use crate::refusals::refused_line;
use sp_core::{Answer, Bench, Core, CoreFault};
use sp_emit::state_lines;
use sp_group::Step;
use sp_plan::{Event, Plan};
use sp_sched::TraceStep;
use std::alloc::{AllocError, Global};
use std::marker::Model;
use std::sync::Arc;

/// A run of the machine over a schedule. Contracts see the plan, the bound, the events of the whole input, and
/// the state of the machine.
#[derive(Drop)]
pub struct Tracer {
    plan: Arc<Plan>,
    events: Vec<Event>,
    // How many of the events were fed.
    fed: u32,
    bench: Bench,
}

impl Model for Tracer {
    ghost use Rattle.sp_trace.specs.Traced.{Tracing};

    ghost Value = { Tracing };

    ghost use Rattle.sp_plan.specs.contracts.plan.Expr as expr;
    ghost use Rattle.sp_plan.specs.contracts.plan.Pred as pred;
    ghost use Rattle.std.specs.Coded.{codes};

    ghost coded = { Prim.hlevel (codes, expr.the_row.coded, pred.the_row.coded) };

    ghost use Rattle.std.specs.Arc.{arc_value};
    ghost use Rattle.sp_trace.specs.Keeping.{IsTracing, tracing};

    ghost view = { λ g. tracing (arc_value g.plan) g.events.items g.bench };

    ghost invariant = { λ g. IsTracing (arc_value g.plan) g.events.items g.fed g.bench };
}

// How many events are fed after an answer, where so many were before it.
fn fed_after(before: u32, answer: &Answer) -> u32
    ensures { result ≡ fed_after before (answered answer.now) }
{
    match answer {
        Answer::Fed(number) => *number,
        _ => before,
    }
}

// One line alone.
fn one_line(alloc: Global, line: String) -> Result<Vec<String>, Memory>
    ensures { IfOk result (λ lines. lines.items ≡ line ∷ []) }
{
    let mut lines = Vec::with_capacity(alloc, 1)?;
    lines.push(line)?;
    Ok(lines)
}

impl Tracer {
    /// A run that has taken no step, of a compiled plan, over events that fit it and never go back in time; at
    /// most `bound` versions, 1 to 4,096, are live at a time.
    pub fn new(
        alloc: Global,
        plan: Arc<Plan>,
        bound: u32,
        events: Vec<Event>,
    ) -> Result<Tracer, Memory>
        requires compiled { IsCompiled (arc_value plan) }
        requires some { 1 ≤ bound }
        requires most { bound ≤ live_limit }
        requires fit { AllFit (arc_value plan) events.items }
        requires ordered { NeverGoesBack events.items }
        ensures { IfOk result (λ tracer. tracer ≡ begun (arc_value plan) bound events.items) }
    {
        let core = Core::new(alloc, plan.clone()?, bound)?;
        Ok(Tracer {
            plan,
            events,
            fed: 0,
            bench: Bench::new(alloc, core)?,
        })
    }

    // The event that is fed next, once more; None where the input has no further one.
    fn next_event(&self, alloc: Global) -> Result<Option<Event>, Memory>
        ensures { IfOk result (λ event. event ≡ next_event self.now) }
    {
        match self.events.as_slice().get(self.fed as usize) {
            Some(event) => Ok(Some(event.copy(alloc)?)),
            None => Ok(None),
        }
    }

    // The step of the machine for which a line of a schedule stands; None where the input has no further event.
    fn machine_step(&self, alloc: Global, step: &TraceStep) -> Result<Option<Step>, Memory>
        ensures { IfOk result (λ own. own ≡ machine_step self.now step.now) }
    {
        let own = match step {
            TraceStep::Feed => return Ok(self.next_event(alloc)?.map(Step::Feed)),
            TraceStep::State => return Ok(None),
            TraceStep::End => Step::End,
            TraceStep::Spawn { parent, label } => Step::Spawn {
                parent: *parent,
                label: label.copy(alloc)?,
            },
            TraceStep::Lease { version, count } => Step::Lease {
                version: *version,
                count: *count,
            },
            TraceStep::Event { ticket } => Step::Event { ticket: *ticket },
            TraceStep::Return { ticket } => Step::Return { ticket: *ticket },
            TraceStep::Roll { version } => Step::Roll { version: *version },
            TraceStep::Finish => Step::Finish,
        };
        Ok(Some(own))
    }

    // Takes the step of the machine for which a line of a schedule stands. None where the input has no further event,
    // and for the printing of the state.
    fn take(&mut self, alloc: Global, step: &TraceStep) -> Result<Option<Answer>, CoreFault>
        requires can_stand { CanStand step.now }
        ensures lines { IfOk result (IsTold self.old step.now) }
        ensures ok { OnOk result (self.new ≡ after self.old step.now) }
        ensures err { OnErr result (self.new ≡ self.old) }
        ensures fault { IfErr result (IsTurnedDown self.old step.now) }
    {
        let Some(own) = self.machine_step(alloc, step)? else {
            return Ok(None);
        };
        let answer = self.bench.step(alloc, own)?;
        self.fed = fed_after(self.fed, &answer);
        Ok(Some(answer))
    }

    /// Takes a step of a schedule, and gives the lines that it prints, each with its line feed. After want of
    /// memory the step was taken or it was not.
    pub fn step(&mut self, alloc: Global, step: &TraceStep) -> Result<Vec<String>, Memory>
        requires can_stand { CanStand step.now }
        ensures lines { IfOk result
            (λ lines. map string_bytes lines.items ≡ lines_for self.old step.now) }
        ensures ok { OnOk result (self.new ≡ after self.old step.now) }
        ensures err { OnErr result ((self.new ≡ self.old) ⊎ (self.new ≡ after self.old step.now)) }
    {
        if let TraceStep::State = step {
            return state_lines(alloc, &self.bench.state(alloc)?);
        }
        let answer = match self.take(alloc, step) {
            Ok(Some(answer)) => answer,
            Ok(None) => return one_line(alloc, String::from_str(alloc, "feed none\n")?),
            Err(CoreFault::Refused(refusal)) => {
                return one_line(alloc, refused_line(alloc, step, refusal)?);
            }
            Err(CoreFault::Memory) => return Err(AllocError),
        };
        answer_lines(alloc, &self.plan, step, &answer)
    }
}
