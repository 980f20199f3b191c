ghost use Rattle.std.specs.Prelude.{◌≡◌, pos, ◌≤ℤ◌, [], true, false, Ok, Some, IsSome, IsErr, OnErr};
ghost use Rattle.sp_base.specs.Limits.{number_limit};
ghost use Rattle.sp_io.specs.Outside.{SourceState};
ghost use Rattle.sp_ports.specs.declared.stop.Stop.{Stop};
ghost use Rattle.sp_intake.specs.declared.reader.State.TheVariants.{Going, Stopped, Broken};

use crate::reader::{RowReader, State, Step};
use sp_plan::{Event, Memory};
use sp_ports::Stop;
use sp_slack::Slack;
use std::alloc::{AllocError, Global};

/// Holds back the events of rows that may come out of order, and gives them in the order of time.
#[derive(Drop)]
pub(crate) struct Held {
    slack: Slack,
    // Whether the end of the input was told.
    drained: bool,
}

impl Held {
    ghost use Rattle.sp_slack.specs.Standing.{Stands};
    ghost use Rattle.sp_intake.specs.RowsSeen.{lateness_of, reader_of, rows_at, held_of, IsAsking};
    ghost use Rattle.sp_intake.specs.Standing.{GivesBy, Holds, IsIdle, given_by, given_in, seen_by, with_held};

    /// Nothing is held back yet. The slack is at most the greatest time.
    pub(crate) fn new(alloc: Global, slack: i64) -> Held
        requires low { pos 0 ≤ℤ slack }
        requires high { slack ≤ℤ pos number_limit }
        ensures stands { Stands (held_of result).kept [] 0 }
        ensures slack { (held_of result).kept.slack ≡ slack }
        ensures none { (held_of result).kept.offered ≡ 0 }
        ensures going { (held_of result).kept.ended ≡ false }
        ensures untold { (held_of result).drained ≡ false }
    {
        Held {
            slack: Slack::new(alloc, slack),
            drained: false,
        }
    }

    // Gives the next of the events that are left where the rows ended, or tells the end.
    fn drain(&mut self, rows: &RowReader, event: &mut Option<Event>) -> Step
        requires ended { rows.now.state ≡ Stopped Stop.End }
        requires holds { Holds (reader_of rows.now) rows.now.state (held_of self.old) }
        ensures gives { (source : SourceState)
            → GivesBy (with_held (rows_at source rows.now) (Some (held_of self.old))) []
            (given_by result event.new)
            (with_held (rows_at source rows.now) (Some (held_of self.new))) }
        ensures holds { Holds (reader_of rows.now) rows.now.state (held_of self.new) }
        ensures some { result ≡ Step.Event → IsSome event.new }
        ensures event { result ≡ Step.Event → ((held_of self.old).drained ≡ false)
            × ((held_of self.new).drained ≡ false) }
        ensures stop { (why : Stop) → result ≡ Step.Stop why
            → (why ≡ Stop.End) × ((held_of self.new).drained ≡ true) }
        ensures never { result ≡ Step.Ask → ⊥ }
    {
        match self.slack.next() {
            Some(ready) => {
                *event = Some(ready);
                Step::Event
            }
            None => {
                self.drained = true;
                Step::Stop(Stop::End)
            }
        }
    }

    // Puts in the next event where the rows go on, or tells why there is none.
    fn go_on(
        &mut self,
        alloc: Global,
        rows: &mut RowReader,
        event: &mut Option<Event>,
    ) -> Result<Step, Memory>
        requires going { rows.old.state ≡ Going }
        requires holds { Holds (reader_of rows.old) rows.old.state (held_of self.old) }
        ensures gives { (source : SourceState)
            → GivesBy (with_held (rows_at source rows.old) (Some (held_of self.old))) []
            (given_in result event.new)
            (with_held (rows_at source rows.new) (Some (held_of self.new))) }
        ensures holds { Holds (reader_of rows.new) rows.new.state (held_of self.new) }
        ensures some { result ≡ Ok Step.Event → IsSome event.new }
        ensures asks { result ≡ Ok Step.Ask
            → IsAsking rows.new × IsIdle (Some (held_of self.new)) }
        ensures stop { (why : Stop) → result ≡ Ok (Step.Stop why)
            → seen_by (held_of self.new).drained rows.new.state ≡ Stopped why }
        ensures event { result ≡ Ok Step.Event
            → seen_by (held_of self.new).drained rows.new.state ≡ Going }
        ensures breaks { OnErr result (rows.new.state ≡ Broken) }
        ensures lateness { lateness_of rows.new ≡ lateness_of rows.old }
    {
        for _ in 0..u64::MAX {
            if let Some(ready) = self.slack.next() {
                *event = Some(ready);
                return Ok(Step::Event);
            }
            let latest = rows.latest();
            match rows.poll(alloc, event)? {
                Step::Event => {}
                Step::Ask => return Ok(Step::Ask),
                Step::Stop(stop) => {
                    if !stop.is_end() {
                        return Ok(Step::Stop(stop));
                    }
                    self.slack.end();
                    return Ok(self.drain(rows, event));
                }
            }
            if let Some(came) = event.take() {
                if self.slack.offer(came).is_err() {
                    rows.lose(latest);
                    return Err(AllocError);
                }
            }
        }
        rows.break_off();
        Err(AllocError)
    }

    /// Puts in the next event in the order of time, or tells why there is none.
    pub(crate) fn poll(
        &mut self,
        alloc: Global,
        rows: &mut RowReader,
        event: &mut Option<Event>,
    ) -> Result<Step, Memory>
        requires holds { Holds (reader_of rows.old) rows.old.state (held_of self.old) }
        ensures gives { (source : SourceState)
            → GivesBy (with_held (rows_at source rows.old) (Some (held_of self.old))) []
            (given_in result event.new)
            (with_held (rows_at source rows.new) (Some (held_of self.new))) }
        ensures holds { Holds (reader_of rows.new) rows.new.state (held_of self.new) }
        ensures some { result ≡ Ok Step.Event → IsSome event.new }
        ensures asks { result ≡ Ok Step.Ask
            → IsAsking rows.new × IsIdle (Some (held_of self.new)) }
        ensures stop { (why : Stop) → result ≡ Ok (Step.Stop why)
            → seen_by (held_of self.new).drained rows.new.state ≡ Stopped why }
        ensures still { result ≡ Ok Step.Ask
            → seen_by (held_of self.old).drained rows.old.state ≡ Going }
        ensures event { result ≡ Ok Step.Event
            → (seen_by (held_of self.old).drained rows.old.state ≡ Going)
            × (seen_by (held_of self.new).drained rows.new.state ≡ Going) }
        ensures stopped { (why : Stop)
            → seen_by (held_of self.old).drained rows.old.state ≡ Stopped why
            → (result ≡ Ok (Step.Stop why))
            × (seen_by (held_of self.new).drained rows.new.state ≡ Stopped why) }
        ensures broken { rows.old.state ≡ Broken → IsErr result }
        ensures breaks { OnErr result (rows.new.state ≡ Broken) }
        ensures lateness { lateness_of rows.new ≡ lateness_of rows.old }
    {
        match rows.state() {
            State::Going => self.go_on(alloc, rows, event),
            State::Stopped(stop) => {
                if !stop.is_end() {
                    return Ok(Step::Stop(stop));
                }
                Ok(self.drain(rows, event))
            }
            State::Broken => Err(AllocError),
        }
    }
}
