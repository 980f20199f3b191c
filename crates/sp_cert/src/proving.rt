// The proofs of a run whose matches are known.
ghost use Rattle.std.specs.Prelude.{◌≡◌, ◌≤◌, ◌<◌, ◌++◌, ℕ, List, length, map, IfOk, OnOk};
ghost use Rattle.std.specs.List.{All};
ghost use Rattle.std.specs.Arc.{arc_value};
ghost use Rattle.sp_base.specs.Limits.{event_limit};
ghost use Rattle.sp_plan.specs.Compiled.{IsCompiled};
ghost use Rattle.sp_plan.specs.Events.{AllFit, NeverGoesBack};
ghost use Rattle.sp_plan.specs.Sequential.{whole};
ghost use Rattle.sp_listing.specs.Listing.{seen};
ghost use Rattle.sp_cert.specs.Flags.{AreFlags};
ghost use Rattle.sp_cert.specs.Proofs.{entry_of, proofs};
ghost use Rattle.sp_cert.specs.Taking.{begins_with, IsFront};

use crate::flags::{flagged, set_flags, used_within};
use crate::spans::{Span, span_of, windows_of};
use sp_listing::WindowProof;
use sp_plan::{Event, Match, Memory, Plan};
use std::alloc::Global;
use std::collections::VecDeque;
use std::sync::Arc;

// Whether the next match is one of the window.
fn is_next(rest: &VecDeque<Match>, window: u32) -> bool
    ensures { result ≡ begins_with window rest.now.items }
{
    rest.front().is_some_and(|one| one.window == window)
}

// Takes the matches of a window off the front of those left.
fn take_matches(
    alloc: Global,
    rest: &mut VecDeque<Match>,
    window: u32,
) -> Result<Vec<Match>, Memory>
    ensures { IfOk result (λ own. IsFront window rest.old.items own.items rest.new.items) }
{
    let mut own = Vec::new(alloc);
    while is_next(rest, window) {
        let Some(one) = rest.pop_front() else {
            unreachable!()
        };
        own.push(one)?;
    }
    Ok(own)
}

// The proof of a window behind those that consumed the flagged events.
fn window_proof(
    alloc: Global,
    consumed: &[bool],
    window: u32,
    span: Span,
    matches: Vec<Match>,
) -> Result<WindowProof, Memory>
    requires low { 1 ≤ span.first }
    requires some { span.first ≤ span.last }
    requires within { span.last ≤ length consumed.now }
    requires few { span.last ≤ event_limit }
    ensures { IfOk result (λ proof. (before : List ℕ) → AreFlags 1 before consumed.now
        → seen proof ≡ entry_of window span.first span.last before matches.items) }
{
    let skipped = flagged(alloc, consumed, 1, span.first, span.last)?;
    let used = used_within(alloc, &matches, span.first, span.last)?;
    Ok(WindowProof {
        window,
        first: span.first,
        last: span.last,
        skipped,
        used,
        matches,
    })
}

/// The proofs of all windows that are closed, where these matches are those of a run over the events. The
/// conditions on the events are those of a run: the plan is compiled, there are at most 1,048,576 events,
/// they fit the plan, and their times never go back. Fails for want of memory alone.
pub fn prove(
    alloc: Global,
    plan: Arc<Plan>,
    events: &[Event],
    ended: bool,
    matches: Vec<Match>,
) -> Result<Vec<WindowProof>, Memory>
    requires compiled { IsCompiled (arc_value plan) }
    requires few { length events.now ≤ event_limit }
    requires fit { AllFit (arc_value plan) events.now }
    requires ordered { NeverGoesBack events.now }
    ensures { IfOk result
        (λ found. matches.items ≡ (whole (arc_value plan) events.now ended).matches
        → map seen found.items ≡ proofs (arc_value plan) events.now ended) }
{
    let windows = windows_of(alloc, plan.clone()?, events, ended)?;
    let mut rest = VecDeque::from(matches);
    let mut consumed = vec![in alloc; false; events.len()]?;
    let mut proofs = Vec::with_capacity(alloc, windows.closed() as usize)?;
    for count in 0..windows.closed() {
        let own = take_matches(alloc, &mut rest, count + 1)?;
        let span = span_of(&plan, events, &windows, count + 1);
        let proof = window_proof(alloc, &consumed, count + 1, span, own)?;
        set_flags(&mut consumed, 1, proof.used.list());
        proofs.push(proof)?;
    }
    Ok(proofs)
}
