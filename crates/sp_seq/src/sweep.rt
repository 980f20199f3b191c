// What goes from window to window, and one window more.
ghost use Rattle.std.specs.Prelude.{◌≡◌, ◌≤◌, ◌<◌, ◌-◌, length, drop, IfOk, OnOk};
ghost use Rattle.std.specs.Arc.{arc_value};
ghost use Rattle.sp_base.specs.Limits.{event_limit};
ghost use Rattle.sp_plan.specs.Compiled.{IsCompiled};
ghost use Rattle.sp_plan.specs.Events.{AllFit};
ghost use Rattle.sp_seq.specs.Learned.{AllKnown};
ghost use Rattle.sp_seq.specs.Spans.{IsSpan, IsSwept};

use crate::learning::learn;
use crate::window::{Seats, Window, consume, match_window};
use sp_match::{Known, Matcher, Moves};
use sp_plan::{Event, Match, Memory, Plan};
use std::alloc::Global;
use std::sync::Arc;

// The matches of some windows, and what is made once for all windows.
#[derive(Drop)]
pub(crate) struct Sweep {
    pub(crate) matches: Vec<Match>,
    // a flag for each event
    pub(crate) consumed: Vec<bool>,
    // of the first events, one after another
    pub(crate) known: Vec<Known>,
    pub(crate) matcher: Matcher,
    pub(crate) moves: Moves,
}

// The matches behind so many.
fn behind(matches: &[Match], count: usize) -> &[Match]
    requires { count ≤ length matches.now }
    ensures { result.now ≡ drop count matches.now }
{
    &matches[count..]
}

impl Sweep {
    // No window was gone through.
    pub(crate) fn new(alloc: Global, plan: Arc<Plan>, events: &[Event]) -> Result<Sweep, Memory>
        requires compiled { IsCompiled (arc_value plan) }
        ensures swept { IfOk result (λ sweep.
            IsSwept (arc_value plan) events.now 0 sweep.matches.items sweep.consumed.items) }
        ensures known { IfOk result
            (λ sweep. AllKnown (arc_value plan) events.now sweep.known.items) }
        ensures plan { IfOk result (λ sweep. sweep.matcher.plan ≡ arc_value plan) }
    {
        let consumed = vec![in alloc; false; events.len()]?;
        let known = Vec::with_capacity(alloc, events.len())?;
        Ok(Sweep {
            matches: Vec::new(alloc),
            consumed,
            known,
            matcher: Matcher::new(alloc, plan)?,
            moves: Moves::new(alloc),
        })
    }

    // Goes through the next window: its matches are added, and consume what they use.
    pub(crate) fn add_window(
        &mut self,
        alloc: Global,
        plan: &Plan,
        events: &[Event],
        window: Window,
    ) -> Result<(), Memory>
        requires compiled { IsCompiled plan.now }
        requires few { length events.now ≤ event_limit }
        requires fit { AllFit plan.now events.now }
        requires some { 0 < window.number }
        requires span { IsSpan plan.now events.now window.number window.first window.end }
        requires swept { IsSwept plan.now events.now (window.number - 1)
            self.old.matches.items self.old.consumed.items }
        requires known { AllKnown plan.now events.now self.old.known.items }
        requires plan { self.old.matcher.plan ≡ plan.now }
        ensures swept { OnOk result (IsSwept plan.now events.now window.number
            self.new.matches.items self.new.consumed.items) }
        ensures known { OnOk result (AllKnown plan.now events.now self.new.known.items) }
        ensures plan { OnOk result (self.new.matcher.plan ≡ plan.now) }
    {
        learn(
            alloc,
            plan,
            events,
            window.first,
            window.end,
            &mut self.known,
        )?;
        let earlier = self.matches.len();
        let seats = Seats {
            events,
            known: &self.known,
            consumed: &self.consumed,
        };
        match_window(
            alloc,
            &mut self.matcher,
            &mut self.moves,
            &seats,
            window,
            &mut self.matches,
        )?;
        consume(&mut self.consumed, behind(&self.matches, earlier));
        Ok(())
    }
}
