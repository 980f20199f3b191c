// Rows of one input, one after the other, and what each gives.
ghost use Rattle.std.specs.Prelude.{◌≡◌, ◌≤◌, ◌<◌, ◌+◌, length};
ghost use Rattle.sp_rows.specs.Progress.{read_of};

use crate::given::lines_of;
use crate::text::AnswerText;
use sp_plan::{Event, Plan, Value};
use sp_rows::{RowError, RowFault, RowKind, Rows};
use std::alloc::{AllocError, Global};
use std::sync::Arc;

// Appends an event: its time, and its values, with a sign before the number of a text.
fn push_event(event: &Event, out: &mut AnswerText) {
    out.number("", event.time as i128);
    out.text(":");
    for place in 0..event.values.len() {
        match event.values.get(place) {
            Some(Value::Number(number)) => out.number(" ", number as i128),
            Some(Value::Symbol(number)) => out.number(" #", number as i128),
            None => {}
        }
    }
    out.text("\n");
}

// Appends a fault: its code, row and column, and what else its kind tells.
fn push_fault(fault: &RowFault, out: &mut AnswerText) {
    out.number("fault ", fault.kind.code() as i128);
    out.number(" row ", fault.row as i128);
    out.number(" column ", fault.column as i128);
    match &fault.kind {
        RowKind::NoColumn(name) => {
            out.text(" without ");
            out.text(name.as_str());
        }
        RowKind::BackInTime { was, now } => {
            out.number(" from ", *was as i128);
            out.number(" to ", *now as i128);
        }
        _ => {}
    }
    out.text("\n");
}

// Appends what the next row gives: an event, nothing, or a fault.
fn push_answer(
    alloc: Global,
    rows: &mut Rows,
    row: &[u8],
    out: &mut AnswerText,
) -> Result<(), AllocError>
    requires { (read_of rows.old).read < 2097153 }
    ensures { (read_of rows.new).read ≤ (read_of rows.old).read + 1 }
{
    match rows.row(alloc, row) {
        Ok(None) => out.text("nothing\n"),
        Ok(Some(event)) => push_event(&event, out),
        Err(RowError::Memory) => return Err(AllocError),
        Err(RowError::Fault(fault)) => push_fault(&fault, out),
    }
    Ok(())
}

// Appends what the end of the input gives.
fn push_end(rows: &Rows, out: &mut AnswerText) {
    match rows.end() {
        Ok(()) => out.text("end\n"),
        Err(fault) => push_fault(&fault, out),
    }
}

// Appends what the lines give as the first rows, and then what the end of the input gives.
fn push_answers(
    alloc: Global,
    rows: &mut Rows,
    lines: &[&[u8]],
    out: &mut AnswerText,
) -> Result<(), AllocError>
    requires { (read_of rows.old).read ≡ 0 }
{
    if lines.len() > 1000 {
        return Ok(());
    }
    for row in lines {
        push_answer(alloc, rows, row, out)?;
    }
    push_end(rows, out);
    Ok(())
}

/// Appends what each line gives as a row, and then the end. More than 1,000 lines give nothing.
pub(crate) fn rows(
    alloc: Global,
    plan: &Arc<Plan>,
    input: &[u8],
    out: &mut AnswerText,
) -> Result<(), AllocError> {
    let lines = lines_of(alloc, input)?;
    let mut rows = Rows::new(alloc, plan.clone()?)?;
    let pushed = push_answers(alloc, &mut rows, &lines, out);
    drop(rows);
    pushed
}
