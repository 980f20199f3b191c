// An event that several bindings hold.
ghost use Rattle.std.specs.Prelude.{◌≡◌, IfOk, OnErr, IsTrue, IsFalse};

use crate::{Event, Memory};
use std::alloc::Global;
use std::marker::Model;
use std::sync::Arc;

/// A handle of an event that no longer changes. The handles that `share` makes of one are of the same copy
/// of the event, which lasts as long as any of them; they may be in different threads. Contracts see the
/// event.
#[derive(Drop)]
pub struct SharedEvent {
    event: Arc<Event>,
}

impl Model for SharedEvent {
    ghost use Rattle.std.specs.Arc.{arc_value};
    ghost use Rattle.sp_plan.specs.declared.event.Event.{Event};

    ghost Value = { Event };

    ghost view = { λ s. arc_value s.event };
}

impl SharedEvent {
    /// A copy of the event, to be shared.
    pub fn of(alloc: Global, event: &Event) -> Result<SharedEvent, Memory>
        ensures { IfOk result (λ shared. shared ≡ event.now) }
    {
        let event = event.copy(alloc)?;
        Ok(SharedEvent {
            event: Arc::new(alloc, event)?,
        })
    }

    /// Makes this the handle of another event, a copy of it that is written over the one at hand. Answers
    /// whether it is so: where another handle is of the same copy, and where memory is wanting, this one stays as
    /// it is.
    pub fn renew(&mut self, alloc: Global, event: &Event) -> Result<bool, Memory>
        ensures renewed { IfOk result (λ renewed. IsTrue renewed → self.new ≡ event.now) }
        ensures kept { IfOk result (λ renewed. IsFalse renewed → self.new ≡ self.old) }
        ensures err { OnErr result (self.new ≡ self.old) }
    {
        match Arc::get_mut(&mut self.event) {
            Some(place) => {
                *place = event.copy(alloc)?;
                Ok(true)
            }
            None => Ok(false),
        }
    }

    /// One more handle of the event. Copies nothing and takes no memory: it fails only where the count of
    /// handles is full, at 2^63 - 1 of them.
    pub fn share(&self) -> Result<SharedEvent, Memory>
        ensures { IfOk result (λ shared. shared ≡ self.now) }
    {
        Ok(SharedEvent {
            event: Arc::try_clone(&self.event)?,
        })
    }

    /// The event.
    pub fn event(&self) -> &Event
        ensures { result.now ≡ self.now }
    {
        &self.event
    }
}
