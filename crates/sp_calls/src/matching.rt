// What events do to the runs of a window.
ghost use Rattle.std.specs.Prelude.{◌≡◌, ◌+◌, ◌<◌, ◌^◌, true, OnOk, []};
ghost use Rattle.std.specs.Arc.{arc_value};
ghost use Rattle.sp_match.specs.public.Laws.{Below};
ghost use Rattle.sp_match.specs.public.Matching.{runs_of};
ghost use Rattle.sp_plan.specs.Compiled.{IsCompiled};
ghost use Rattle.sp_plan.specs.Events.{fits};

use crate::text::AnswerText;
use sp_base::Numbers;
use sp_emit::match_line;
use sp_match::{Matcher, Move, Moves, match_of, places_of};
use sp_plan::{Event, Plan};
use sp_wants::{Stretch, Wants};
use std::alloc::{AllocError, Global};
use std::sync::Arc;

// What stands between two pairs of a list.
const BETWEEN_PAIRS: &str = "), (";

// Appends the numbers of the events that a completed run uses, and the match of window 1 that it is, with
// the run's number as its own.
fn push_match(
    alloc: Global,
    plan: &Plan,
    run: u32,
    bound: &[(u8, Numbers)],
    used: &Numbers,
    out: &mut AnswerText,
) -> Result<(), AllocError> {
    let places = places_of(alloc, used)?;
    out.list(" uses ", places.list());
    drop(places);
    let one = match_of(alloc, 1, u64::from(run), bound, used)?;
    let line = match_line(alloc, plan, &one);
    drop(one);
    out.text(": ");
    out.text(line?.as_str().trim_end());
    Ok(())
}

// Appends what happened to a run.
fn push_move(
    alloc: Global,
    plan: &Plan,
    one: &Move,
    out: &mut AnswerText,
) -> Result<(), AllocError> {
    match one {
        Move::Opened { run } => push_run(*run, " opens.", out),
        Move::Grown { run, number } => {
            push_run(*run, " takes", out);
            push_run(*number, ".", out);
        }
        Move::Completed { run, bound, used } => {
            push_run(*run, "", out);
            return push_match(alloc, plan, *run, bound.as_slice(), used, out);
        }
        Move::Abandoned { run } => push_run(*run, " leaves.", out),
    }
    Ok(())
}

// Appends a number, with a blank before it, and a text behind it.
fn push_run(number: u32, what: &str, out: &mut AnswerText) {
    out.number(" ", number as i128);
    out.text(what);
}

// Appends the pair of a stretch for each of its runs: a text before the first one, and commas between them.
fn push_stretch(first: &str, stretch: &Stretch, out: &mut AnswerText) {
    let mut before = first;
    for _ in 0..stretch.times {
        out.number(before, i128::from(stretch.before));
        out.number(", ", i128::from(stretch.after));
        before = BETWEEN_PAIRS;
    }
}

// Appends a list of pairs that isn't empty.
fn push_wanted(wanted: &Wants, out: &mut AnswerText) {
    let mut before = " wanted [(";
    for stretch in wanted.stretches() {
        push_stretch(before, stretch, out);
        before = BETWEEN_PAIRS;
    }
    out.text(")]");
}

// Appends the moves, and what the runs wanted before and after the event.
fn push_all(
    alloc: Global,
    plan: &Plan,
    moves: &Moves,
    out: &mut AnswerText,
) -> Result<(), AllocError> {
    for one in &moves.list {
        push_move(alloc, plan, one, out)?;
    }
    if !moves.wanted.is_empty() {
        push_wanted(&moves.wanted, out);
    }
    Ok(())
}

// The moves as a text.
fn moves_text(alloc: Global, plan: &Plan, moves: Moves) -> Result<String, AllocError> {
    let mut text = AnswerText::new(alloc);
    let pushed = push_all(alloc, plan, &moves, &mut text);
    drop(moves);
    pushed?;
    text.into_text()
}

// Appends how many events each of the first open runs still wants at least.
fn push_lefts(matcher: &Matcher, out: &mut AnswerText) {
    let runs = matcher.open_runs();
    for place in 0..runs.len().min(4) {
        out.number(" left ", matcher.left(place as u32) as i128);
    }
    out.text("\n");
}

// Offers an event to the matcher, and tells the moves as a text.
fn offered(
    alloc: Global,
    matcher: &mut Matcher,
    plan: &Plan,
    number: u32,
    event: &Event,
) -> Result<String, AllocError>
    requires plan { matcher.old.plan ≡ plan.now }
    requires fits { fits plan.now event.now ≡ true }
    requires below { Below number (runs_of matcher.old) }
    ensures plan { matcher.new.plan ≡ plan.now }
{
    moves_text(alloc, plan, matcher.offer(alloc, number, event)?)
}

// The same by the other call, into moves that are there.
fn offered_into(
    alloc: Global,
    matcher: &mut Matcher,
    plan: &Plan,
    number: u32,
    event: &Event,
) -> Result<String, AllocError>
    requires plan { matcher.old.plan ≡ plan.now }
    requires fits { fits plan.now event.now ≡ true }
    requires below { Below number (runs_of matcher.old) }
    ensures plan { matcher.new.plan ≡ plan.now }
    ensures below { OnOk result (Below (number + 1) (runs_of matcher.new)) }
{
    let mut moves = Moves::new(alloc);
    let offered = matcher.offer_into(alloc, number, event, &mut moves);
    let text = moves_text(alloc, plan, moves);
    offered?;
    text
}

// Offers an event to the matcher and to a copy of it, and appends the moves. Both calls must tell the
// same, and leave the same runs.
fn push_offer(
    alloc: Global,
    matcher: &mut Matcher,
    plan: &Plan,
    number: u32,
    event: &Event,
    out: &mut AnswerText,
) -> Result<(), AllocError>
    requires plan { matcher.old.plan ≡ plan.now }
    requires fits { fits plan.now event.now ≡ true }
    requires below { Below number (runs_of matcher.old) }
    ensures plan { matcher.new.plan ≡ plan.now }
    ensures below { OnOk result (Below (number + 1) (runs_of matcher.new)) }
{
    let mut copy = matcher.copy(alloc)?;
    let again = offered(alloc, &mut copy, plan, number, event);
    let told = offered_into(alloc, matcher, plan, number, event);
    let is_same = copy.same_runs(matcher) && matcher.same(&copy);
    drop(copy);
    out.number("", number as i128);
    out.text(":");
    push_told(told?.as_str(), again?.as_str(), is_same, out);
    push_lefts(matcher, out);
    Ok(())
}

// Appends what the matcher told, and what its copy told where that is something else or the runs differ.
fn push_told(told: &str, again: &str, is_same: bool, out: &mut AnswerText) {
    out.text(told);
    if !is_same || told != again {
        out.text(" but of a copy");
        out.text(again);
    }
}

// Offers the events that fit, from number 1 on, and closes the window. More than 1,000 are not taken.
fn push_moves(
    alloc: Global,
    matcher: &mut Matcher,
    plan: &Plan,
    events: &[Event],
    out: &mut AnswerText,
) -> Result<(), AllocError>
    requires plan { matcher.old.plan ≡ plan.now }
    requires none { matcher.old.open_runs ≡ [] }
    requires count { matcher.old.started ≡ 0 }
{
    if events.len() > 1000 {
        return Ok(());
    }
    let mut number = 1u32;
    for event in events {
        if plan.fits(event) {
            push_offer(alloc, matcher, plan, number, event, out)?;
            number += 1;
        }
    }
    out.text("closed:");
    out.made(moves_text(alloc, plan, matcher.close(alloc)?));
    out.text("\n");
    Ok(())
}

/// Appends the moves of each event in a window, and those of its end.
pub(crate) fn moves(
    alloc: Global,
    plan: &Arc<Plan>,
    events: &[Event],
    out: &mut AnswerText,
) -> Result<(), AllocError>
    requires { IsCompiled (arc_value plan.now) }
{
    let mut matcher = Matcher::new(alloc, plan.clone()?)?;
    let pushed = push_moves(alloc, &mut matcher, plan, events, out);
    drop(matcher);
    pushed
}
