// Events bound to names.
use crate::given::number;
use crate::text::AnswerText;
use sp_plan::{Bound, Event, Values};
use std::alloc::{AllocError, Global};

// Binds an event of this time and no column to the name.
fn bind(alloc: Global, bound: &mut Bound, name: &str, time: &str) -> Result<(), AllocError> {
    let event = Event {
        time: i64::from(number(time)),
        values: Values::from_slice(alloc, &[])?,
    };
    bound.bind(alloc, name.parse().unwrap_or(0), &event)
}

// Puts other bound events in the place of these.
fn replace(by: Result<Bound, AllocError>, bound: &mut Bound) -> Result<(), AllocError> {
    *bound = by?;
    Ok(())
}

// Does what a word says: `3=7` binds an event of time 7 to name 3, `copy` goes on with a copy.
fn step(alloc: Global, bound: &mut Bound, word: &str) -> Result<(), AllocError> {
    match word.split_once('=') {
        Some((name, time)) => bind(alloc, bound, name, time),
        None if word == "copy" => replace(bound.copy(alloc), bound),
        None => {
            bound.clear();
            Ok(())
        }
    }
}

// Appends the times of the last events of the names 0 to 3.
fn push_times(bound: &Bound, out: &mut AnswerText) {
    for name in 0..4 {
        match bound.get(name) {
            Some(event) => out.number(" ", event.time as i128),
            None => out.text(" -"),
        }
    }
}

// Does what a word says, and appends the events bound, and whether they are the same as before.
fn push_step(
    alloc: Global,
    bound: &mut Bound,
    word: &str,
    out: &mut AnswerText,
) -> Result<(), AllocError> {
    let before = bound.copy(alloc)?;
    let stepped = step(alloc, bound, word);
    let is_same = bound.same(&before);
    drop(before);
    out.text(word);
    out.text(":");
    push_times(bound, out);
    out.text(if is_same { " same\n" } else { "\n" });
    stepped
}

// Does what the words say, one after the other.
fn push_steps(
    alloc: Global,
    bound: &mut Bound,
    words: &[String],
    out: &mut AnswerText,
) -> Result<(), AllocError> {
    for word in words {
        push_step(alloc, bound, word.as_str(), out)?;
    }
    Ok(())
}

/// Does what the words say, beginning with nothing bound, and appends after each the events bound, and
/// whether they are the same as before.
pub(crate) fn bindings(
    alloc: Global,
    words: &[String],
    out: &mut AnswerText,
) -> Result<(), AllocError> {
    let mut bound = Bound::new(alloc);
    let pushed = push_steps(alloc, &mut bound, words, out);
    drop(bound);
    pushed
}
