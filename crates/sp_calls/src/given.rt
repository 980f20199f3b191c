// What calls are made on: plans of queries, events of rows, numbers in words.
ghost use Rattle.std.specs.Prelude.{IfSome, ◌≡◌, ◌<◌, length};
ghost use Rattle.std.specs.Arc.{arc_value};
ghost use Rattle.sp_plan.specs.Compiled.{IsCompiled};
ghost use Rattle.sp_rows.specs.Progress.{read_of};

use sp_compile::compile;
use sp_parse::parse;
use sp_plan::{Event, Plan};
use sp_query::Query;
use sp_rows::Rows;
use std::alloc::{AllocError, Global};
use std::sync::Arc;

/// The most bytes of a text that a call is made on.
pub(crate) const LONGEST: usize = 100_000;

/// The query that the word at this place has, if it has one.
pub(crate) fn query_of(alloc: Global, words: &[String], place: usize) -> Option<Query> {
    let text = words.get(place)?.as_str();
    if text.len() > LONGEST {
        return None;
    }
    parse(alloc, text).ok()
}

// The plan of a query, shared.
fn shared(alloc: Global, query: &Query) -> Option<Arc<Plan>>
    ensures { IfSome result (λ plan. IsCompiled (arc_value plan)) }
{
    match compile(alloc, query) {
        Ok(plan) => Arc::new(alloc, plan).ok(),
        Err(_) => None,
    }
}

/// The plan of the query that the first word is, if it has one.
pub(crate) fn plan_of(alloc: Global, words: &[String]) -> Option<Arc<Plan>>
    ensures { IfSome result (λ plan. IsCompiled (arc_value plan)) }
{
    let query = query_of(alloc, words, 0)?;
    let plan = shared(alloc, &query);
    drop(query);
    plan
}

/// The lines of an input, behind the last line feed an empty one.
pub(crate) fn lines_of<'a>(alloc: Global, input: &'a [u8]) -> Result<Vec<&'a [u8]>, AllocError> {
    let mut lines = Vec::new(alloc);
    for line in input.split(|byte| *byte == b'\n') {
        lines.push(line)?;
    }
    Ok(lines)
}

// The events that the lines give as the first rows.
fn events_of_lines(
    alloc: Global,
    rows: &mut Rows,
    lines: &[&[u8]],
) -> Result<Vec<Event>, AllocError>
    requires { (read_of rows.old).read ≡ 0 }
{
    let mut events = Vec::new(alloc);
    if lines.len() > 1000 {
        return Ok(events);
    }
    for row in lines {
        if let Some(Some(event)) = rows.row(alloc, row).ok() {
            events.push(event)?;
        }
    }
    Ok(events)
}

/// The events of lines of CSV; faulty rows give none, and more than 1,000 lines give none either.
pub(crate) fn events_of(
    alloc: Global,
    plan: &Arc<Plan>,
    input: &[u8],
) -> Result<Vec<Event>, AllocError> {
    let lines = lines_of(alloc, input)?;
    let mut rows = Rows::new(alloc, plan.clone()?)?;
    let events = events_of_lines(alloc, &mut rows, &lines);
    drop(rows);
    events
}

/// The number that a text is, and 0 of another text.
pub(crate) fn number(text: &str) -> u32 {
    text.parse().unwrap_or(0)
}

/// The same of a number that may be longer.
pub(crate) fn long_number(text: &str) -> u64 {
    text.parse().unwrap_or(0)
}

/// The two numbers that a text is, with a comma between them, and 0 where one is missing.
pub(crate) fn two_numbers(text: &str) -> (u32, u32) {
    match text.split_once(',') {
        Some((first, second)) => (number(first), number(second)),
        None => (number(text), 0),
    }
}

/// The numbers that a text lists, parted by commas, and none of a dash.
pub(crate) fn numbers_of(alloc: Global, text: &str) -> Result<Vec<u32>, AllocError> {
    let mut list = Vec::new(alloc);
    for part in text.split(',') {
        if part != "-" {
            list.push(number(part))?;
        }
    }
    Ok(list)
}
