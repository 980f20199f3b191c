// Lines of matches, written and read back.
use crate::given::{number, numbers_of};
use crate::text::AnswerText;
use sp_emit::{match_line, read_match_line};
use sp_plan::{Listed, Match, Places, Plan};
use std::alloc::{AllocError, Global};
use std::str;

// Appends the line of the match of which the text is the line.
fn push_again(
    alloc: Global,
    plan: &Plan,
    text: &str,
    out: &mut AnswerText,
) -> Result<(), AllocError> {
    match read_match_line(alloc, plan, text)? {
        Some(found) => {
            out.made(match_line(alloc, plan, &found));
            drop(found);
        }
        None => out.text("no line\n"),
    }
    Ok(())
}

/// Reads the input as a line of the plan's query, and appends the match's own line.
pub(crate) fn read_line(
    alloc: Global,
    plan: &Plan,
    input: &[u8],
    out: &mut AnswerText,
) -> Result<(), AllocError> {
    push_again(alloc, plan, str::from_utf8(input).unwrap_or(""), out)
}

// The numbers of events that a text lists, none of a dash; no numbers where they don't rise.
fn places(alloc: Global, text: &str) -> Result<Option<Places>, AllocError> {
    Places::new(alloc, &numbers_of(alloc, text)?)
}

// The numbers of the events of each name, from name 0 on.
fn bound_of(alloc: Global, texts: &[String]) -> Result<Vec<(u8, Places)>, AllocError> {
    let mut bound = Vec::new(alloc);
    for (name, text) in (0u8..32).zip(texts) {
        if let Some(events) = places(alloc, text.as_str())? {
            bound.push((name, events))?;
        }
    }
    Ok(bound)
}

// The match of these words behind the query: its window, its number, what it uses, and the events of each
// name.
fn built(alloc: Global, words: &[String]) -> Result<Option<Match>, AllocError> {
    let [_, window, count, used, names @ ..] = words else {
        return Ok(None);
    };
    let bound = bound_of(alloc, names)?;
    match places(alloc, used.as_str())? {
        Some(used) => Ok(Some(Match {
            window: number(window.as_str()),
            number: count.as_str().parse().unwrap_or(0),
            bound: Listed::of(bound),
            used,
        })),
        None => Ok(None),
    }
}

// Appends the line of a match, and what is read back.
fn push_both(
    alloc: Global,
    plan: &Plan,
    one: &Match,
    out: &mut AnswerText,
) -> Result<(), AllocError> {
    let line = match_line(alloc, plan, one)?;
    out.text(line.as_str());
    push_again(alloc, plan, line.as_str(), out)
}

/// Appends the line of the match that the words behind the query make, and what is read back.
pub(crate) fn written_line(
    alloc: Global,
    plan: &Plan,
    words: &[String],
    out: &mut AnswerText,
) -> Result<(), AllocError> {
    match built(alloc, words)? {
        Some(one) => {
            let pushed = push_both(alloc, plan, &one, out);
            drop(one);
            pushed
        }
        None => {
            out.text("no match\n");
            Ok(())
        }
    }
}
