ghost use Rattle.std.specs.Arc.{arc_value};
ghost use Rattle.sp_plan.specs.Compiled.{IsCompiled};

use crate::bindings::bindings;
use crate::chances::chances;
use crate::cutting::cut_rows;
use crate::drill::{generated, summary};
use crate::given::{events_of, plan_of};
use crate::guessing::guess;
use crate::lines::{read_line, written_line};
use crate::listing::listing;
use crate::loads::loads;
use crate::machine::machine;
use crate::matching::moves;
use crate::numbers::{numbers, shares};
use crate::predicates::predicates;
use crate::predicting::predict;
use crate::queries::{printed, same};
use crate::rows::rows;
use crate::scanning::scan;
use crate::schedule::schedule;
use crate::sequence::matches;
use crate::stepped::stepped;
use crate::text::AnswerText;
use crate::tokens::tokens;
use crate::windows::windows;
use sp_io::MemFiles;
use sp_plan::{Event, Plan};
use std::alloc::{AllocError, Global};
use std::sync::Arc;

/// What the call of this name answers, line by line. A call on a text of more than 100,000 bytes, or whose
/// words are none of its own, answers nothing. Any other name is taken for a call on a plan: the answer
/// then says that there is no plan, or no such call.
pub fn answer(
    alloc: Global,
    call: &str,
    words: &[String],
    files: &mut MemFiles,
    input: &[u8],
) -> Result<String, AllocError> {
    let mut out = AnswerText::new(alloc);
    push_answer(alloc, call, words, files, input, &mut out)?;
    out.into_text()
}

// Appends what the call of this name answers.
fn push_answer(
    alloc: Global,
    call: &str,
    words: &[String],
    files: &mut MemFiles,
    input: &[u8],
    out: &mut AnswerText,
) -> Result<(), AllocError> {
    match call {
        "tokens" => tokens(alloc, input, out),
        "cut" => cut_rows(alloc, words, input, out),
        "loads" => Ok(loads(alloc, words, files, out)),
        "schedule" => Ok(schedule(alloc, input, out)),
        "predict" => predict(alloc, words, out),
        "chances" => chances(alloc, words, out),
        "guesses" => guess(alloc, words, out),
        _ => answer_of_words(alloc, call, words, input, out),
    }
}

// The same of the calls that are made on words alone.
fn answer_of_words(
    alloc: Global,
    call: &str,
    words: &[String],
    input: &[u8],
    out: &mut AnswerText,
) -> Result<(), AllocError> {
    match call {
        "numbers" => numbers(alloc, words, out),
        "shares" => Ok(shares(words, out)),
        "bindings" => bindings(alloc, words, out),
        "generate" => Ok(generated(alloc, words, out)),
        "summary" => Ok(summary(alloc, words, out)),
        "print" => Ok(printed(alloc, words, out)),
        "same" => Ok(same(alloc, words, out)),
        _ => match plan_of(alloc, words) {
            Some(plan) => answer_of_plan(alloc, call, &plan, words, input, out),
            None => Ok(out.text("no plan\n")),
        },
    }
}

// The same of the calls that are made on the plan of the query that the first word is.
fn answer_of_plan(
    alloc: Global,
    call: &str,
    plan: &Arc<Plan>,
    words: &[String],
    input: &[u8],
    out: &mut AnswerText,
) -> Result<(), AllocError>
    requires { IsCompiled (arc_value plan.now) }
{
    match call {
        "rows" => rows(alloc, plan, input, out),
        "line" => read_line(alloc, plan, input, out),
        "match" => written_line(alloc, plan, words, out),
        "listing" => listing(alloc, plan, input, out),
        "stepped" => stepped(alloc, plan, words, out),
        _ => {
            let events = events_of(alloc, plan, input)?;
            answer_of_events(alloc, call, plan, &events, words, out)
        }
    }
}

// The same of the calls that are made on a plan and events.
fn answer_of_events(
    alloc: Global,
    call: &str,
    plan: &Arc<Plan>,
    events: &[Event],
    words: &[String],
    out: &mut AnswerText,
) -> Result<(), AllocError>
    requires { IsCompiled (arc_value plan.now) }
{
    match call {
        "windows" => windows(alloc, plan, events, out),
        "moves" => moves(alloc, plan, events, out),
        // The input has ended where there is a second word.
        "plain" => matches(alloc, plan, events, words.len() > 1, out),
        "holds" => predicates(alloc, plan, events, out),
        "scan" => scan(alloc, plan, events, words, out),
        "machine" => machine(alloc, plan, events, words, out),
        _ => Ok(out.text("no such call\n")),
    }
}
