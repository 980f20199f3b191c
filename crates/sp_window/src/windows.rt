ghost use Rattle.std.specs.Prelude.{◌≡◌, ◌≤◌, ◌<◌, pos, ◌≤ℤ◌, ◌+◌, ◌++◌, ◌∷◌, [], Bool, true, false, List, length, IfOk, OnOk, OnErr, unsigned_abs};
ghost use Rattle.std.specs.Arc.{arc_value};
ghost use Rattle.std.specs.Option.{option_map};
ghost use Rattle.sp_base.specs.Limits.{event_limit};
ghost use Rattle.sp_plan.specs.declared.event.Event.{Event as EventValue};
ghost use Rattle.sp_plan.specs.Windows as spec;
ghost use Rattle.sp_plan.specs.Events.{fits};
ghost use Rattle.sp_plan.specs.Compiled.{IsCompiled};
ghost use Rattle.sp_plan.specs.WindowNumbers.{numbered_window};
ghost use Rattle.sp_window.specs.Standing.{Stands, shown};

use crate::opening::{open, stamp_of};
use crate::record::{Record, close_all, close_reached};
use sp_plan::{Event, Memory, Plan};
use std::alloc::Global;
use std::marker::Model;
use std::sync::Arc;

/// A window by the numbers of its events, which count from 1. The number of its last event is there
/// exactly where the window is closed.
#[derive(Clone, Copy, Drop, PartialEq, Eq)]
pub struct Window {
    pub first: u32,
    pub end: Option<u32>,
}

/// The windows of a plan while its events come. Contracts see the plan, how many events were fed, the
/// time of the last one, and whether the input has ended; and the windows through `Stands`.
#[derive(Drop)]
pub struct Windows {
    plan: Arc<Plan>,
    records: Vec<Record>,
    // How many windows are closed: they are the first ones.
    closed: usize,
    // The next opening: the place of its event from 0, or the number of its span of time from 0.
    next: u64,
    fed: u32,
    time: u64,
    ended: bool,
}

impl Model for Windows {
    ghost use Rattle.sp_window.specs.Standing.{Kept};

    ghost Value = { Kept };

    ghost use Rattle.sp_plan.specs.contracts.plan.Expr as expr;
    ghost use Rattle.sp_plan.specs.contracts.plan.Pred as pred;
    ghost use Rattle.std.specs.Coded.{codes};

    ghost coded = { Prim.hlevel (codes, expr.the_row.coded, pred.the_row.coded) };

    ghost use Rattle.sp_window.specs.Keeping.{kept_of, IsKept};

    ghost view = { kept_of };

    ghost invariant = { IsKept };
}

impl Windows {
    /// The windows of a compiled plan before its first event. Takes no memory.
    pub fn new(alloc: Global, plan: Arc<Plan>) -> Result<Windows, Memory>
        requires { IsCompiled (arc_value plan) }
        ensures plan { IfOk result (λ windows. windows.plan ≡ arc_value plan) }
        ensures stands { IfOk result (λ windows. Stands windows [] false) }
    {
        Ok(Windows {
            plan,
            records: Vec::new(alloc),
            closed: 0,
            next: 0,
            fed: 0,
            time: 0,
            ended: false,
        })
    }

    /// The next event of an input that has not ended: it fits the plan, is no earlier than the last one,
    /// and is at most the 1,048,576th. It opens its windows, at most 64, and closes those that it is the
    /// first to be past, or that it fills. Where memory runs out all is as before.
    pub fn feed(&mut self, alloc: Global, event: &Event) -> Result<(), Memory>
        requires fits { fits self.old.plan event.now ≡ true }
        requires in_order { pos self.old.time ≤ℤ event.now.time }
        requires more { self.old.ended ≡ false }
        requires few { self.old.fed < event_limit }
        ensures stands { OnOk result
            ((events : List EventValue) → Stands self.old events false
            → Stands self.new (events ++ event.now ∷ []) false) }
        ensures fed { OnOk result (self.new.fed ≡ self.old.fed + 1) }
        ensures time { OnOk result (pos self.new.time ≡ event.now.time) }
        ensures plan { self.new.plan ≡ self.old.plan }
        ensures more { self.new.ended ≡ false }
        ensures kept { OnErr result (self.new ≡ self.old) }
    {
        let number = self.fed + 1;
        let time = stamp_of(event);
        self.next = open(
            alloc,
            &self.plan,
            self.next,
            number,
            event,
            &mut self.records,
        )?;
        self.closed = close_reached(&mut self.records, self.closed, number, time);
        self.fed = number;
        self.time = time;
        Ok(())
    }

    /// The input ends behind the events fed: each open window is closed at the last one. Takes no memory.
    pub fn end(&mut self)
        ensures stands { (events : List EventValue) (ended : Bool) → Stands self.old events ended
            → Stands self.new events true }
        ensures plan { self.new.plan ≡ self.old.plan }
        ensures over { self.new.ended ≡ true }
    {
        close_all(&mut self.records, self.closed, self.fed);
        self.closed = self.records.len();
        self.ended = true;
    }

    /// The window of this number, which counts from 1; None where there is none.
    pub fn get(&self, number: u32) -> Option<Window>
        ensures { (events : List EventValue) (ended : Bool) → Stands self.now events ended
            → result ≡ option_map shown (numbered_window self.now.plan events ended number) }
    {
        if number == 0 {
            return None;
        }
        let record = self.records.get(number as usize - 1)?;
        Some(Window {
            first: record.first,
            end: record.end,
        })
    }

    /// How many windows have been opened.
    pub fn count(&self) -> u32
        ensures { (events : List EventValue) (ended : Bool) → Stands self.now events ended
            → result ≡ length (spec.windows self.now.plan events ended) }
    {
        self.records.len() as u32
    }

    /// How many windows are closed: they are those with the first numbers.
    pub fn closed(&self) -> u32
        ensures { (events : List EventValue) (ended : Bool) → Stands self.now events ended
            → result ≡ spec.closed self.now.plan events ended }
    {
        self.closed as u32
    }
}
