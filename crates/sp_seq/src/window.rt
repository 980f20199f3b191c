// One window: its matches, and what they consume.
ghost use Rattle.std.specs.Prelude.{◌≡◌, ℕ, ◌≤◌, List, ◌++◌, length, OnOk};
ghost use Rattle.std.specs.List.{flat_map};
ghost use Rattle.sp_base.specs.Limits.{event_limit};
ghost use Rattle.sp_plan.specs.Events.{AllFit};
ghost use Rattle.sp_plan.specs.Runs.{state};
ghost use Rattle.sp_seq.specs.Marked.{IsMarked};
ghost use Rattle.sp_seq.specs.Unconsumed.{unconsumed};
ghost use Rattle.sp_seq.specs.Completed.{with_matches};
ghost use Rattle.sp_seq.specs.Learned.{AllKnown};

use crate::found::add_matches;
use sp_match::{Known, Matcher, Moves};
use sp_plan::{Event, Match, Memory};
use std::alloc::Global;

// A closed window: its number from 1, the place of its first event from 0, and the place behind its
// last.
#[derive(Clone, Copy, Drop)]
pub(crate) struct Window {
    pub(crate) number: u32,
    pub(crate) first: usize,
    pub(crate) end: usize,
}

// Marks these numbers as consumed. The flag of number n stands at place n - 1.
fn mark(consumed: &mut [bool], numbers: &[u32])
    ensures { (before : List ℕ) → IsMarked before consumed.old
        → IsMarked (before ++ numbers.now) consumed.new }
{
    for number in numbers {
        let at = *number as usize;
        if 0 < at && at <= consumed.len() {
            consumed[at - 1] = true;
        }
    }
}

// Marks what these matches use.
pub(crate) fn consume(consumed: &mut [bool], matches: &[Match])
    ensures { (before : List ℕ) → IsMarked before consumed.old
        → IsMarked (before ++ flat_map (λ one. one.used) matches.now) consumed.new }
{
    for one in matches {
        mark(consumed, one.used.list());
    }
}

// The events, what is known of each, and which are consumed.
#[derive(Clone, Copy, Drop)]
pub(crate) struct Seats<'a> {
    pub(crate) events: &'a [Event],
    // at least of those that the window has
    pub(crate) known: &'a [Known],
    pub(crate) consumed: &'a [bool],
}

// Adds the matches of one window over the events that are not consumed. The matcher and the moves
// are begun anew: only their room is used again. Events that change nothing are passed over.
pub(crate) fn match_window(
    alloc: Global,
    matcher: &mut Matcher,
    moves: &mut Moves,
    seats: &Seats,
    window: Window,
    matches: &mut Vec<Match>,
) -> Result<(), Memory>
    requires fit { AllFit matcher.old.plan seats.now.events.now }
    requires known { AllKnown matcher.old.plan seats.now.events.now seats.now.known.now }
    requires few { length seats.now.events.now ≤ event_limit }
    requires ordered { window.first ≤ window.end }
    requires within { window.end ≤ length seats.now.events.now }
    requires learned { window.end ≤ length seats.now.known.now }
    requires same { length seats.now.consumed.now ≡ length seats.now.events.now }
    ensures plan { matcher.new.plan ≡ matcher.old.plan }
    ensures more { OnOk result (length matches.old.items ≤ length matches.new.items) }
    ensures matches { OnOk result ((before : List ℕ) → IsMarked before seats.now.consumed.now
        → matches.new.items ≡ with_matches matcher.old.plan window.number matches.old.items
        (state matcher.old.plan
        (unconsumed before seats.now.events.now window.first window.end))) }
{
    // Laws: the completions told of an event are the matches that it adds, and the events of a window use each
    // run number once.
    sp_match::law::completions_are_matches();
    sp_match::law::runs_are_sound();
    matcher.clear();
    for i in window.first..window.end {
        if !seats.consumed[i] {
            let known = seats.known[i];
            if !matcher.ignores(known) {
                let number = (i + 1) as u32;
                matcher.offer_known::<false>(alloc, number, &seats.events[i], known, moves)?;
                add_matches(alloc, window.number, &mut moves.list, matches)?;
            }
        }
    }
    Ok(())
}
