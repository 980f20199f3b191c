// Events that wait, in the order of time.
ghost use Rattle.std.specs.Prelude.{◌≡◌, not, ◌<◌, ◌≤◌, ◌+◌, pos, ◌≤ℤ◌, true, false, [], ◌∷◌, ℤ, List, Some, None, OnOk, OnErr, IfSome};
ghost use Rattle.std.specs.List.{All};
ghost use Rattle.std.specs.Option.{ForSome};
ghost use Rattle.std.specs.BTreeMap.{values};
ghost use Rattle.sp_base.specs.Limits.{number_limit};
ghost use Rattle.sp_plan.specs.Events.{NeverGoesBack};
ghost use Rattle.sp_plan.specs.declared.event.Event as came;
ghost use Rattle.sp_slack.specs.HeldBack.{put as with_event, is_before, is_up_to, with_time, first_held};

use sp_plan::{Event, Memory};
use std::alloc::{AllocError, Global};
use std::collections::{BTreeMap, VecDeque};

/// Where the first of the events that wait stands, and its time.
#[derive(Clone, Copy, Drop)]
pub(crate) struct First {
    pub(crate) time: i64,
    pub(crate) in_line: bool,
}

/// Keeps events by time, those of one time as they came. Those that come in order stand in a line, and cost no search.
#[derive(Drop)]
pub(crate) struct Waiting {
    // Those that came behind no later one, as they came; and the others, by time and arrival. Of events of one time
    // those in the line came first.
    line: VecDeque<Event>,
    behind: BTreeMap<(i64, u32), Event>,
    // The greatest time that came, and how many came.
    greatest: Option<i64>,
    came: u32,
    ghost timed: { ForSome greatest (λ t. (pos 0 ≤ℤ t) × (t ≤ℤ pos number_limit)) },
    ghost in_line: { All (λ e. is_up_to greatest e ≡ true) line.items },
    ghost earlier: { All (λ e. is_before greatest e ≡ true) (values behind) },
    ghost placed: { All (λ entry. (entry.0.0 ≡ entry.1.time) × (entry.0.1 < came)) behind.entries },
    ghost rising: { NeverGoesBack (values behind) },
}

impl Waiting {
    ghost use Rattle.sp_slack.specs.Waiting.{held_in};

    /// Nothing waits yet. Takes no memory.
    pub(crate) fn new(alloc: Global) -> Waiting
        ensures none { held_in result ≡ [] }
        ensures greatest { result.greatest ≡ None }
        ensures came { result.came ≡ 0 }
    {
        Waiting {
            line: VecDeque::new(alloc),
            behind: BTreeMap::new(alloc),
            greatest: None,
            came: 0,
        }
    }

    /// The greatest time that came.
    pub(crate) fn greatest(&self) -> Option<i64>
        ensures is { result ≡ self.now.greatest }
        ensures timed { ForSome result (λ t. (pos 0 ≤ℤ t) × (t ≤ℤ pos number_limit)) }
    {
        self.greatest
    }

    // The greatest time once this event came.
    fn greatest_with(&self, event: &Event) -> Option<i64>
        requires low { pos 0 ≤ℤ event.now.time }
        requires high { event.now.time ≤ℤ pos number_limit }
        ensures is { result ≡ with_time self.now.greatest event.now }
        ensures timed { ForSome result (λ t. (pos 0 ≤ℤ t) × (t ≤ℤ pos number_limit)) }
    {
        match self.greatest {
            None => Some(event.time),
            Some(greatest) => Some(greatest.max(event.time)),
        }
    }

    // Whether no later event than this one came.
    fn is_in_order(&self, event: &Event) -> bool
        ensures { result ≡ not (is_before self.now.greatest event.now) }
    {
        match self.greatest {
            None => true,
            Some(greatest) => greatest <= event.time,
        }
    }

    // Adds an event at the end of the line, which is then the latest.
    fn add_last(&mut self, event: Event) -> Result<(), Memory>
        requires low { pos 0 ≤ℤ event.time }
        requires high { event.time ≤ℤ pos number_limit }
        requires in_order { is_before self.old.greatest event ≡ false }
        requires few { self.old.came < 2097152 }
        ensures held { OnOk result (held_in self.new ≡ with_event (held_in self.old) event) }
        ensures greatest { OnOk result (self.new.greatest ≡ with_time self.old.greatest event) }
        ensures came { OnOk result (self.new.came ≡ self.old.came + 1) }
        ensures err { OnErr result ((held_in self.new ≡ held_in self.old)
            × (self.new.greatest ≡ self.old.greatest) × (self.new.came ≡ self.old.came)) }
    {
        let greatest = self.greatest_with(&event);
        self.line.push_back(event)?;
        self.greatest = greatest;
        self.came += 1;
        Ok(())
    }

    // Adds an event behind the line.
    fn add_behind(&mut self, event: Event) -> Result<(), Memory>
        requires low { pos 0 ≤ℤ event.time }
        requires high { event.time ≤ℤ pos number_limit }
        requires late { is_before self.old.greatest event ≡ true }
        requires few { self.old.came < 2097152 }
        ensures held { OnOk result (held_in self.new ≡ with_event (held_in self.old) event) }
        ensures greatest { OnOk result (self.new.greatest ≡ with_time self.old.greatest event) }
        ensures came { OnOk result (self.new.came ≡ self.old.came + 1) }
        ensures err { OnErr result ((held_in self.new ≡ held_in self.old)
            × (self.new.greatest ≡ self.old.greatest) × (self.new.came ≡ self.old.came)) }
    {
        match self.behind.insert((event.time, self.came), event) {
            Ok(_) => {}
            Err(_) => return Err(AllocError),
        }
        self.came += 1;
        Ok(())
    }

    /// Keeps an event. Where memory runs out the event is lost, and all else is as before.
    pub(crate) fn add(&mut self, event: Event) -> Result<(), Memory>
        requires low { pos 0 ≤ℤ event.time }
        requires high { event.time ≤ℤ pos number_limit }
        requires few { self.old.came < 2097152 }
        ensures held { OnOk result (held_in self.new ≡ with_event (held_in self.old) event) }
        ensures greatest { OnOk result (self.new.greatest ≡ with_time self.old.greatest event) }
        ensures came { OnOk result (self.new.came ≡ self.old.came + 1) }
        ensures err { OnErr result ((held_in self.new ≡ held_in self.old)
            × (self.new.greatest ≡ self.old.greatest) × (self.new.came ≡ self.old.came)) }
    {
        if self.is_in_order(&event) {
            self.add_last(event)
        } else {
            self.add_behind(event)
        }
    }

    /// The first of the events that wait; none where none does.
    pub(crate) fn first(&self) -> Option<First>
        ensures { result ≡ first_held self.now.line.items (values self.now.behind) }
    {
        match (self.line.front(), self.behind.first_key_value()) {
            (None, None) => None,
            (Some(event), None) => Some(First {
                time: event.time,
                in_line: true,
            }),
            (None, Some((place, _))) => Some(First {
                time: place.0,
                in_line: false,
            }),
            (Some(event), Some((place, _))) => Some(First {
                time: event.time.min(place.0),
                in_line: event.time <= place.0,
            }),
        }
    }

    /// Takes out the first of the events that wait.
    pub(crate) fn take(&mut self, first: First) -> Option<Event>
        requires { first_held self.old.line.items (values self.old.behind) ≡ Some first }
        ensures taken { (e : came.Event) → result ≡ Some e → held_in self.old ≡ e ∷ held_in self.new }
        ensures some { result ≡ None → ⊥ }
        ensures greatest { self.new.greatest ≡ self.old.greatest }
        ensures came { self.new.came ≡ self.old.came }
    {
        if first.in_line {
            return self.line.pop_front();
        }
        let (_, event) = self.behind.pop_first()?;
        Some(event)
    }
}
