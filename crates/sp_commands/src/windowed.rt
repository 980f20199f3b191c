// The command `plain`: a query over the input, window by window.
ghost use Rattle.std.specs.Prelude.{◌≡◌, pos, ◌≤ℤ◌, false, IfOk};
ghost use Rattle.std.specs.Arc.{arc_value};
ghost use Rattle.sp_base.specs.Limits.{number_limit};
ghost use Rattle.sp_plan.specs.Compiled.{IsCompiled};
ghost use Rattle.sp_ports.specs.Giving.{AreGood};
ghost use Rattle.sp_load.specs.Places.{place_of};
ghost use Rattle.sp_answer.specs.Outcome.{ending};
ghost use Rattle.sp_answer.specs.Promise.{filed, Served};
ghost use Rattle.sp_answer.specs.Ran.{outside, Ran};
ghost use Rattle.sp_answer.specs.Written.{WritesText};
ghost use Rattle.sp_commands.specs.Commands.{files_at, lateness};
ghost use Rattle.sp_commands.specs.Run.{windows_text, IsPlanRun, RunOutcome};

use crate::asked::Lateness;
use crate::ends::{status_of_refusal, written_status};
use crate::given::{Given, read_events};
use crate::output::write_lines;
use sp_answer::{Status, Written};
use sp_io::{Files, Sink, Source};
use sp_load::{Place, plan_at};
use sp_plan::{Memory, Plan};
use std::alloc::Global;
use std::sync::Arc;

/// The plan, to be held by several owners.
pub fn shared(alloc: Global, plan: Plan) -> Result<Arc<Plan>, Memory>
    ensures { IfOk result (λ arc. arc_value arc ≡ plan) }
{
    Ok(Arc::new(alloc, plan)?)
}

// Writes the lines of the windows that the events closed.
fn write_windows<K: Sink>(
    alloc: Global,
    plan: &Arc<Plan>,
    given: &Given,
    out: &mut K,
) -> Result<Written, Memory>
    requires compiled { IsCompiled (arc_value plan.now) }
    requires good { AreGood (arc_value plan.now) given.now.events.items }
    ensures { let text = windows_text (arc_value plan.now) given.now.events.items given.now.stop in
        WritesText text (K.state out.old) (K.state out.new) result }
{
    let matches = sp_seq::plain(alloc, plan.clone()?, &given.events, given.stop.is_end())?;
    write_lines(alloc, plan, &matches, out)
}

// Runs a plan over the input.
fn run_plan<S: Source, K: Sink>(
    alloc: Global,
    plan: Plan,
    late: Lateness,
    input: &mut S,
    out: &mut K,
) -> Status
    requires compiled { IsCompiled plan }
    requires low { pos 0 ≤ℤ late.slack }
    requires high { late.slack ≤ℤ pos number_limit }
    requires not_ended { (S.state input.old).ended ≡ false }
    ensures { Ran (IsPlanRun plan (lateness late.slack late.rule))
        (outside (S.state input.old) (K.state out.old))
        (outside (S.state input.new) (K.state out.new))
        (ending result) }
{
    let Ok(plan) = shared(alloc, plan) else {
        return Status::Memory;
    };
    let Ok(given) = read_events(alloc, &plan, late, input) else {
        return Status::Memory;
    };
    let written = write_windows(alloc, &plan, &given, out);
    written_status(given.status, written)
}

/// Runs the query that stands there over the input, window by window. The slack is at most the greatest time.
pub fn plain<S: Source, F: Files, K: Sink>(
    alloc: Global,
    place: Place,
    late: Lateness,
    input: &mut S,
    files: &mut F,
    out: &mut K,
) -> Status
    requires low { pos 0 ≤ℤ late.slack }
    requires high { late.slack ≤ℤ pos number_limit }
    requires not_ended { (S.state input.old).ended ≡ false }
    ensures { Served (files_at (place_of place.entry))
        (RunOutcome (place_of place.entry) (lateness late.slack late.rule))
        (filed (F.held files.old) (F.faults files.old))
        (filed (F.held files.new) (F.faults files.new))
        (outside (S.state input.old) (K.state out.old))
        (outside (S.state input.new) (K.state out.new))
        (ending result) }
{
    match plan_at(alloc, place, files) {
        Ok(plan) => run_plan(alloc, plan, late, input, out),
        Err(refusal) => status_of_refusal(refusal),
    }
}
