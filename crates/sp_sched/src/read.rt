ghost use Rattle.std.specs.Prelude.{◌≡◌, ◌∷◌, ◌+◌, ◌<◌, ◌^◌, [], length, IfOk, IfErr, MatchOption, OnOk};
ghost use Rattle.std.specs.List.{All};
ghost use Rattle.sp_sched.specs.Schedules as s;
ghost use Rattle.sp_sched.specs.Schedules.{CanStand, IsFault, IsSchedule, lines};
ghost use Rattle.sp_sched.specs.Reading.{Adds, IsFirstLine, IsLineFault};

use crate::cut::cut;
use crate::line::step_of;
use crate::{SchedFault, TraceStep};
use std::alloc::Global;

// What a line feed ends, without a carriage return just before it.
fn without_cr(part: &[u8]) -> &[u8]
    ensures { result.now ≡ s.without_cr part.now }
{
    match part {
        [front @ .., b'\r'] => front,
        _ => part,
    }
}

// The first line that a line feed ends, and what stands behind it; None where the text is one line.
fn first_line(text: &[u8]) -> Option<(&[u8], &[u8])>
    ensures { MatchOption result (lines text.now ≡ text.now ∷ [])
        (λ p. IsFirstLine text.now p.0.now p.1.now) }
{
    let Some((part, rest)) = cut(text, b'\n') else {
        return None;
    };
    Some((without_cr(part), rest))
}

// Takes a line in, in front of which so many stand.
fn take_line(
    alloc: Global,
    line: &[u8],
    before: u32,
    steps: &mut Vec<TraceStep>,
) -> Result<(), SchedFault>
    requires { before + length line.now < 2 ^ 32 }
    ensures taken { OnOk result (Adds line.now steps.old.items steps.new.items) }
    ensures fault { IfErr result (IsLineFault line.now before) }
{
    if line.is_empty() {
        return Ok(());
    }
    let Some(step) = step_of(alloc, line)? else {
        return Err(SchedFault::BadStep { line: before + 1 });
    };
    steps.push(step)?;
    Ok(())
}

/// The steps of a schedule, one a line; blank lines are passed over. `BadStep` comes exactly where a line is
/// neither blank nor a step, with the first such line. Each number is in its range, and each label rises.
pub fn read_schedule(alloc: Global, text: &[u8]) -> Result<Vec<TraceStep>, SchedFault>
    requires { length text.now < 2 ^ 32 }
    ensures steps { IfOk result (λ steps. IsSchedule text.now steps.items) }
    ensures stand { IfOk result (λ steps. All CanStand steps.items) }
    ensures fault { IfErr result (IsFault text.now) }
{
    let mut steps = Vec::new(alloc);
    let mut rest = text;
    let mut before = 0;
    'lines: while let Some((line, behind)) = first_line(rest) {
        take_line(alloc, line, before, &mut steps)?;
        before += 1;
        rest = behind;
    }
    take_line(alloc, rest, before, &mut steps)?;
    Ok(steps)
}
