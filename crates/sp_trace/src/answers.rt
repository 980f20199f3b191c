// The lines of an answer.
ghost use Rattle.std.specs.Prelude.{◌≡◌, ◌++◌, length, map, codes, string_bytes, IfOk};
ghost use Rattle.std.specs.Fmt.{decimal};
ghost use Rattle.sp_plan.specs.declared.plan.Plan.{Plan};
ghost use Rattle.sp_core.specs.Benched.{answered};
ghost use Rattle.sp_core.specs.Carrying.{ticket_of};
ghost use Rattle.sp_trace.specs.Traced.{answer_lines, finish_line, lease_line, named_by, skip_text};
ghost use Rattle.sp_trace.specs.Told.{first_line, matches_in};

use crate::Memory;
use sp_core::{Answer, Emitted, Lent};
use sp_emit::{match_line, push_id, push_numbers, push_truth};
use sp_plan::{Match, Plan};
use sp_sched::TraceStep;
use std::alloc::Global;
use std::fmt::Write;

// Room for the line of a lease with few numbers.
const ROOM: usize = 64;

// The ticket or version that a reading, a return or a roll names; else 0.
fn named_by(step: &TraceStep) -> u64
    ensures { result ≡ named_by step.now }
{
    match step {
        TraceStep::Event { ticket } | TraceStep::Return { ticket } => *ticket,
        TraceStep::Roll { version } => *version,
        _ => 0,
    }
}

// The line of what went out.
fn lease_line(alloc: Global, lent: &Lent) -> Result<String, Memory>
    ensures { IfOk result (λ line. string_bytes line ≡ lease_line (ticket_of lent.now)) }
{
    let (ticket, first, count) = (lent.ticket, lent.first, lent.count);
    let mut out = String::with_capacity(alloc, ROOM)?;
    write!(out, "lease {ticket} first={first} count={count} skip=")?;
    push_numbers(&mut out, &lent.snapshot)?;
    out.push_str(" closes=")?;
    push_truth(&mut out, lent.closes)?;
    out.push_str("\n")?;
    Ok(out)
}

// What stands behind the number of an event that was passed over.
fn skip_text(skipped: bool) -> &'static str
    ensures { result.now ≡ skip_text skipped }
{
    if skipped { " skip" } else { "" }
}

// The line of an event that was read under a ticket, or passed over.
fn read_line(alloc: Global, ticket: u64, number: u32, skipped: bool) -> Result<String, Memory>
    ensures { IfOk result (λ line. string_bytes line
        ≡ codes "event " ++ decimal ticket ++ codes " " ++ decimal number
        ++ skip_text skipped ++ codes "\n") }
{
    let skip = skip_text(skipped);
    format!(in alloc; "event {ticket} {number}{skip}\n")
}

// The line of a version that began anew under another id.
fn roll_line(alloc: Global, version: u64, id: u64) -> Result<String, Memory>
    ensures { IfOk result (λ line. string_bytes line
        ≡ codes "roll " ++ decimal version ++ codes " " ++ decimal id ++ codes "\n") }
{
    format!(in alloc; "roll {version} {id}\n")
}

// The first line of a finished window; those of its matches come behind it.
fn finish_line(alloc: Global, finished: &Emitted) -> Result<String, Memory>
    ensures { IfOk result (λ line. string_bytes line
        ≡ finish_line finished.now.window (length finished.now.matches.items) finished.now.root) }
{
    let (window, count) = (finished.window, finished.matches.len());
    let mut out = format!(in alloc; "finish {window} matches={count} root=")?;
    push_id(&mut out, finished.root)?;
    out.push_str("\n")?;
    Ok(out)
}

// The line of an answer; of a finished window the first one.
fn answer_line(alloc: Global, step: &TraceStep, answer: &Answer) -> Result<String, Memory>
    ensures { IfOk result (λ line. (q : Plan)
        → string_bytes line ≡ first_line (answer_lines q step.now (answered answer.now))) }
{
    let named = named_by(step);
    match answer {
        Answer::Fed(number) => format!(in alloc; "feed {number}\n"),
        Answer::Ended => String::from_str(alloc, "end\n"),
        Answer::Spawned(id) => format!(in alloc; "spawn {id}\n"),
        Answer::Leased(lent) => lease_line(alloc, lent),
        Answer::Read { number, skipped } => read_line(alloc, named, *number, *skipped),
        Answer::Closed => format!(in alloc; "event {named} close\n"),
        Answer::Home => format!(in alloc; "return {named} home\n"),
        Answer::Stale => format!(in alloc; "return {named} stale\n"),
        Answer::Rolled(id) => roll_line(alloc, named, *id),
        Answer::Finished(finished) => finish_line(alloc, finished),
    }
}

// The matches of a finished window; of any other answer none.
fn matches_of(answer: &Answer) -> &[Match]
    ensures { result.now ≡ matches_in answer.now }
{
    match answer {
        Answer::Finished(finished) => finished.matches.as_slice(),
        _ => &[],
    }
}

// The lines of an answer to a step: one, and behind that of a finished window those of its matches.
pub(crate) fn answer_lines(
    alloc: Global,
    plan: &Plan,
    step: &TraceStep,
    answer: &Answer,
) -> Result<Vec<String>, Memory>
    ensures { IfOk result (λ lines. map string_bytes lines.items
        ≡ answer_lines plan.now step.now (answered answer.now)) }
{
    let matches = matches_of(answer);
    let mut lines = Vec::with_capacity(alloc, 1 + matches.len())?;
    lines.push(answer_line(alloc, step, answer)?)?;
    for found in matches {
        lines.push(match_line(alloc, plan, found)?)?;
    }
    Ok(lines)
}
