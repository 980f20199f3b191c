// The length of windows, and the step between them.
ghost use Rattle.std.specs.Prelude.{◌≡◌, ◌≤◌, ◌<◌, None, nat_le, if◌then◌else◌};
ghost use Rattle.sp_base.specs.Limits.{number_limit, step_limit};
ghost use Rattle.sp_lex.specs.declared.token.Word.TheVariants as w;
ghost use Rattle.sp_plan.specs.Windows as windows;
ghost use Rattle.sp_compile.specs.declared.fault.CompileFault.TheVariants as f;
ghost use Rattle.sp_compile.specs.Checks as checks;
ghost use Rattle.sp_compile.specs.Stands as stands;

use crate::CompileFault;
use sp_base::limits::{LENGTH_LIMIT, NUMBER_LIMIT, STEP_LIMIT};
use sp_plan::{Length, Opening};
use sp_query::{Query, Span, Word};

/// In how many windows an event may be.
const MOST_WINDOWS: u64 = 64;

// Whether a number is 1 up to this limit.
fn is_within(number: u64, limit: u64) -> bool
    ensures { result ≡ checks.is_within number limit }
{
    (1..=limit).contains(&number)
}

// Whether the length of windows keeps its limits.
fn length_is_fine(query: &Query) -> bool
    ensures { result ≡ checks.length_is_fine query.now.time query.now.length.0 query.now.length.1 }
{
    let (number, unit, _) = query.length;
    match unit {
        Word::Time => query.time.is_some() && is_within(number, NUMBER_LIMIT),
        _ => is_within(number, LENGTH_LIMIT),
    }
}

/// What is wrong with the length of windows.
pub(crate) fn length_fault(query: &Query) -> Option<CompileFault>
    ensures { result ≡ checks.length_fault query.now }
{
    if length_is_fine(query) {
        None
    } else {
        Some(CompileFault::BadWindow(query.length.2))
    }
}

// Whether an event is in few windows of this size and step.
fn is_in_few(size: u64, step: u64) -> bool
    requires { 0 < step }
    ensures { result ≡ nat_le (windows.windows_per_event size step) 64 }
{
    size.div_ceil(step) <= MOST_WINDOWS
}

// Whether a step keeps its limits with windows of this size.
fn step_is_fine(size: u64, of: Word, step: u64, unit: Word) -> bool
    ensures { result ≡ checks.step_is_fine size of step unit }
{
    match (of, unit) {
        (Word::Time, Word::Time) => is_within(step, NUMBER_LIMIT) && is_in_few(size, step),
        (_, Word::Time) => false,
        (Word::Time, _) => is_within(step, STEP_LIMIT),
        _ => is_within(step, STEP_LIMIT) && is_in_few(size, step),
    }
}

/// What is wrong with a step between windows.
pub(crate) fn step_fault(query: &Query, step: u64, unit: Word, span: Span) -> Option<CompileFault>
    ensures { result
        ≡ (if checks.step_is_fine query.now.length.0 query.now.length.1 step unit then None
        else Some (f.BadWindow span)) }
{
    if step_is_fine(query.length.0, query.length.1, step, unit) {
        None
    } else {
        Some(CompileFault::BadWindow(span))
    }
}

/// The length of the plan's windows.
pub(crate) fn plan_length(number: u64, unit: Word) -> Length
    requires { windows.IsLength (stands.plan_length number unit) }
    ensures { result ≡ stands.plan_length number unit }
{
    match unit {
        Word::Time => Length::Time(number as i64),
        _ => Length::Events(number as u32),
    }
}

/// The plan's step between windows.
pub(crate) fn plan_step(number: u64, unit: Word) -> Opening
    requires time { unit ≡ w.Time → number ≤ number_limit }
    requires events { (unit ≡ w.Time → ⊥) → number ≤ step_limit }
    ensures { result ≡ stands.plan_step number unit }
{
    match unit {
        Word::Time => Opening::EveryTime(number as i64),
        _ => Opening::EveryEvents(number as u32),
    }
}
