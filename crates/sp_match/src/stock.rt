// What a matcher holds besides its runs: a handle of the event at hand, and what runs that ended left for
// later ones.
ghost use Rattle.std.specs.Prelude.{◌≡◌, None, Some, IfOk, OnOk, OnErr};
ghost use Rattle.std.specs.Option.{option_copied};
ghost use Rattle.sp_match.specs.inside.Kept.{kept, empty};

use crate::Memory;
use crate::run::Run;
use sp_plan::{Event, SharedEvent};
use std::alloc::Global;
use std::marker::Model;

// So many handles are held for later events at most.
const MOST: usize = 64;

/// A handle of the event at hand, where a run has bound it; runs that ended, whose rooms later ones take;
/// and handles of events that they had bound, which later events are written over. Contracts see the event
/// at hand.
#[derive(Drop)]
pub(crate) struct Stock {
    event: Option<SharedEvent>,
    runs: Vec<Run>,
    handles: Vec<SharedEvent>,
}

impl Model for Stock {
    ghost use Rattle.std.specs.Prelude.{Option};
    ghost use Rattle.sp_plan.specs.declared.event.Event.{Event};

    ghost Value = { Option Event };

    ghost view = { λ s. s.event };
}

impl Stock {
    // Nothing. Takes no memory.
    pub(crate) fn new(alloc: Global) -> Stock
        ensures { result ≡ None }
    {
        Stock {
            event: None,
            runs: Vec::new(alloc),
            handles: Vec::new(alloc),
        }
    }

    // Another event is at hand, which no run has bound.
    pub(crate) fn begin(&mut self)
        ensures { self.new ≡ None }
    {
        self.event = None;
    }

    // The handle of the event at hand, where a run has bound it.
    pub(crate) fn event(&self) -> Option<&SharedEvent>
        ensures { option_copied result ≡ self.now }
    {
        self.event.as_ref()
    }

    // This is the event at hand from now on, of which a handle is kept.
    pub(crate) fn keep_event(&mut self, event: &SharedEvent) -> Result<(), Memory>
        ensures kept { OnOk result (self.new ≡ Some event.now) }
        ensures err { OnErr result (self.new ≡ self.old) }
    {
        self.event = Some(event.share()?);
        Ok(())
    }

    // A handle of a copy of the event, which is written over the event of an earlier handle where there is one.
    pub(crate) fn copy_of(&mut self, alloc: Global, event: &Event) -> Result<SharedEvent, Memory>
        ensures event { IfOk result (λ handle. handle ≡ event.now) }
        ensures same { self.new ≡ self.old }
    {
        if let Some(mut handle) = self.handles.pop() {
            if handle.renew(alloc, event)? {
                return Ok(handle);
            }
        }
        SharedEvent::of(alloc, event)
    }

    // A run that has bound no event, in the rooms of one that ended where there is one. Where there is none, room
    // is made in which it and those that are open, so many, can be kept later; without memory for that they are
    // dropped then.
    pub(crate) fn run(&mut self, alloc: Global, number: u32, open: usize) -> Run
        ensures run { kept result ≡ empty number }
        ensures same { self.new ≡ self.old }
    {
        if let Some(run) = self.runs.pop() {
            return run.renewed(number);
        }
        let _ = self.runs.reserve(open.saturating_add(1));
        Run::new(alloc, number)
    }

    // Takes a run that ended. Where memory is wanting it is dropped.
    pub(crate) fn take(&mut self, mut run: Run)
        ensures { self.new ≡ self.old }
    {
        if self.handles.len() < MOST {
            run.events.release(&mut self.handles);
        } else {
            run.events.clear();
        }
        let _ = self.runs.push(run);
    }

    // Takes a run that ended where there is room for it, and handles of its events where there is room for all of
    // them; else drops them. Takes no memory.
    pub(crate) fn keep(&mut self, mut run: Run)
        ensures { self.new ≡ self.old }
    {
        if self.runs.len() >= self.runs.capacity() {
            return;
        }
        let room = self.handles.capacity().saturating_sub(self.handles.len());
        if run.bound.len() <= room {
            run.events.release(&mut self.handles);
        } else {
            run.events.clear();
        }
        self.runs.push_reserved(run);
    }
}
