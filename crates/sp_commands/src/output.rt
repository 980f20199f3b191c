// The way of lines to the output.
ghost use Rattle.std.specs.Prelude.{map, string_bytes, Ok};
ghost use Rattle.sp_answer.specs.Written.{WritesText};
ghost use Rattle.sp_plan.specs.Lines.{text};
ghost use Rattle.sp_trace.specs.Traced.{joined};

use sp_answer::Written;
use sp_emit::push_match_line;
use sp_io::Sink;
use sp_plan::{Match, Memory, Plan};
use std::alloc::Global;

/// Writes the line of each match by one call. Whatever it answers, what was written begins their text. The
/// room of a line is used again for the next one.
pub fn write_lines<K: Sink>(
    alloc: Global,
    plan: &Plan,
    matches: &[Match],
    out: &mut K,
) -> Result<Written, Memory>
    ensures { WritesText (text plan.now matches.now) (K.state out.old) (K.state out.new) result }
{
    let mut line = String::new(alloc);
    for found in matches {
        line.clear();
        push_match_line(&mut line, plan, found)?;
        match out.write_all(line.as_bytes()) {
            Ok(()) => {}
            Err(_) => return Ok(Written::Failed),
        }
    }
    Ok(Written::All)
}

/// Writes a line by one call, and an empty one by none.
pub(crate) fn write_one<K: Sink>(line: &str, out: &mut K) -> Written
    ensures { WritesText line.now (K.state out.old) (K.state out.new) (Ok result) }
{
    if line.is_empty() {
        return Written::All;
    }
    match out.write_all(line.as_bytes()) {
        Ok(()) => Written::All,
        Err(_) => Written::Failed,
    }
}

/// Writes each line by one call.
pub(crate) fn write_texts<K: Sink>(lines: &[String], out: &mut K) -> Written
    ensures { let text = joined (map string_bytes lines.now) in
        WritesText text (K.state out.old) (K.state out.new) (Ok result) }
{
    for line in lines {
        match write_one(line.as_str(), out) {
            Written::All => {}
            Written::Failed => return Written::Failed,
        }
    }
    Written::All
}
