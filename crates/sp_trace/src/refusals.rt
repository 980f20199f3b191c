// The line of a step that is refused.
ghost use Rattle.std.specs.Prelude.{◌≡◌, ◌++◌, codes, string_bytes, IfOk, OnOk};
ghost use Rattle.std.specs.Fmt.{decimal};
ghost use Rattle.std.specs.List.{flat_map};
ghost use Rattle.sp_trace.specs.Traced.{refused_line, values_of, word_of};

use crate::Memory;
use sp_group::Refusal;
use sp_sched::TraceStep;
use std::alloc::Global;
use std::fmt::Write;

// The first word of a step's line.
fn word_of(step: &TraceStep) -> &str
    ensures { result.now ≡ word_of step.now }
{
    match step {
        TraceStep::Feed => "feed",
        TraceStep::End => "end",
        TraceStep::Spawn { .. } => "spawn",
        TraceStep::Lease { .. } => "lease",
        TraceStep::Event { .. } => "event",
        TraceStep::Return { .. } => "return",
        TraceStep::Roll { .. } => "roll",
        TraceStep::Finish => "finish",
        TraceStep::State => "state",
    }
}

// Adds a value behind a blank.
fn push_value(out: &mut String, value: u64) -> Result<(), Memory>
    ensures { OnOk result
        (string_bytes out.new ≡ string_bytes out.old ++ (codes " " ++ decimal value)) }
{
    write!(out, " {value}")?;
    Ok(())
}

// Adds the values that a refusal carries, in their order.
fn push_values(out: &mut String, refusal: Refusal) -> Result<(), Memory>
    ensures { OnOk result (string_bytes out.new
        ≡ string_bytes out.old ++ flat_map (λ n. codes " " ++ decimal n) (values_of refusal)) }
{
    match refusal {
        Refusal::AfterEnd => Ok(()),
        Refusal::NotLive { version } | Refusal::NoConflict { version } => push_value(out, version),
        Refusal::NotOpen { group } => push_value(out, u64::from(group)),
        Refusal::LabelTaken { child } => push_value(out, child),
        Refusal::NoWindow { number } => push_value(out, u64::from(number)),
        Refusal::Full { live, bound } => {
            push_value(out, u64::from(live))?;
            push_value(out, u64::from(bound))
        }
        Refusal::Out { ticket } | Refusal::NoTicket { ticket } => push_value(out, ticket),
        Refusal::Conflict { event } => push_value(out, u64::from(event)),
        Refusal::NothingToRead { position } => push_value(out, u64::from(position)),
        Refusal::NotDone { finished } => push_value(out, u64::from(finished)),
        Refusal::TooManyEvents { limit } => push_value(out, u64::from(limit)),
    }
}

// The line of a refusal: the word of its step, its code and its values.
pub(crate) fn refused_line(
    alloc: Global,
    step: &TraceStep,
    refusal: Refusal,
) -> Result<String, Memory>
    ensures { IfOk result (λ line. string_bytes line ≡ refused_line (word_of step.now) refusal) }
{
    let word = word_of(step);
    let code = refusal.code();
    let mut line = format!(in alloc; "{word} refused {code}")?;
    push_values(&mut line, refusal)?;
    line.push_str("\n")?;
    Ok(line)
}
