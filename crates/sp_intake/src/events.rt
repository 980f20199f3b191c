ghost use Rattle.std.specs.Prelude.{◌≡◌, ◌≤◌, pos, ◌≤ℤ◌, [], false, true, Ok, Some, None, IsSome, IsErr, OnErr, length, IfOk};
ghost use Rattle.std.specs.Arc.{arc_value};
ghost use Rattle.sp_base.specs.Limits.{number_limit};
ghost use Rattle.sp_io.specs.Outside.{SourceState, Rose};
ghost use Rattle.sp_plan.specs.Compiled.{IsCompiled};
ghost use Rattle.sp_plan.specs.declared.event.Event as came;
ghost use Rattle.sp_ports.specs.Giving.{given_at, given_by};
ghost use Rattle.sp_ports.specs.Stopping.{Halts};
ghost use Rattle.sp_ports.specs.declared.intake.Next.{Next};
ghost use Rattle.sp_ports.specs.declared.stop.Stop.{Stop};
ghost use Rattle.std.specs.Option.{ForSome};
ghost use Rattle.sp_intake.specs.LooseLaws.{punctual};
ghost use Rattle.sp_intake.specs.RowsSeen.{lateness_of, reader_of, held_of};
ghost use Rattle.sp_intake.specs.Standing.{Holds};

use crate::held::Held;
use crate::reader::{RowReader, Step};
use sp_io::Failed;
use sp_plan::{Event, Memory, Plan};
use sp_ports::Next;
use sp_slack::LateRule;
use std::alloc::Global;
use std::sync::Arc;

/// Reads events of bytes, in whatever pieces they come; up to the end of the input, to the first row
/// that fails, to a limit or to a fault of the source. Events that may come out of order it gives in the order of
/// time, each once none that isn't late can come before it; behind a stop that isn't the end it gives none.
#[derive(Drop)]
pub struct EventReader {
    rows: RowReader,
    // What holds events back, where they may come out of order.
    held: Option<Held>,
    stops: u64,
    ghost on_time: { held ≡ None → lateness_of rows ≡ punctual },
    ghost holds: { ForSome held (λ own. Holds (reader_of rows) rows.state (held_of own)) },
}

impl EventReader {
    ghost use Rattle.sp_intake.specs.Standing.{GivesBy, WasRead, stop_in, is_whole, given_in};
    ghost use Rattle.sp_intake.specs.Pieces.{TakesPiece};
    ghost use Rattle.sp_intake.specs.Asked.{plan_in, late_in, standing, state_in, IsFresh, IsUnasked, IsFreshWithin, IsUnaskedWithin, IsWaiting, last_answer};
    ghost use Rattle.sp_intake.specs.declared.reader.State.TheVariants.{Stopped, Broken};

    /// Nothing was read yet. Times never go back.
    pub fn new(alloc: Global, plan: &Arc<Plan>) -> Result<EventReader, Memory>
        requires { IsCompiled (arc_value plan.now) }
        ensures fresh { IfOk result (λ events. IsFresh (arc_value plan.now) events) }
        ensures unasked { IfOk result (λ events. IsUnasked (arc_value plan.now) events) }
        ensures plan { IfOk result (λ events. plan_in events ≡ arc_value plan.now) }
        ensures none { IfOk result (λ events. events.stops ≡ 0) }
    {
        let rows = RowReader::new(alloc, plan, 0, LateRule::Refuse)?;
        Ok(EventReader {
            rows,
            held: None,
            stops: 0,
        })
    }

    /// The same where an event may be behind the greatest time before it by a slack, which is at most the greatest
    /// time: events are held back, and given in the order of time. By a rule an event that is further behind is
    /// refused, or passed over.
    pub fn within(
        alloc: Global,
        plan: &Arc<Plan>,
        slack: i64,
        rule: LateRule,
    ) -> Result<EventReader, Memory>
        requires compiled { IsCompiled (arc_value plan.now) }
        requires low { pos 0 ≤ℤ slack }
        requires high { slack ≤ℤ pos number_limit }
        ensures fresh { IfOk result (λ events. IsFreshWithin (arc_value plan.now)
            (record { slack = slack; rule = rule }) events) }
        ensures unasked { IfOk result (λ events. IsUnaskedWithin (arc_value plan.now)
            (record { slack = slack; rule = rule }) events) }
        ensures plan { IfOk result (λ events. plan_in events ≡ arc_value plan.now) }
        ensures none { IfOk result (λ events. events.stops ≡ 0) }
    {
        let rows = RowReader::new(alloc, plan, slack, rule)?;
        let held = Held::new(alloc, slack);
        Ok(EventReader {
            rows,
            held: Some(held),
            stops: 0,
        })
    }

    // Puts in the next event, or tells why there is none.
    #[inline(always)]
    fn poll(&mut self, alloc: Global, event: &mut Option<Event>) -> Result<Step, Memory>
        ensures gives { (source : SourceState)
            → GivesBy (standing source self.old) [] (given_in result event.new)
            (standing source self.new) }
        ensures some { result ≡ Ok Step.Event → IsSome event.new }
        ensures asks { result ≡ Ok Step.Ask → IsWaiting self.new }
        ensures stop { (why : Stop) → result ≡ Ok (Step.Stop why)
            → state_in self.new ≡ Stopped why }
        ensures still { result ≡ Ok Step.Ask → state_in self.new ≡ state_in self.old }
        ensures event { result ≡ Ok Step.Event → state_in self.new ≡ state_in self.old }
        ensures stopped { (why : Stop) → state_in self.old ≡ Stopped why
            → (result ≡ Ok (Step.Stop why)) × (state_in self.new ≡ state_in self.old) }
        ensures broken { state_in self.old ≡ Broken → IsErr result }
        ensures breaks { OnErr result (state_in self.new ≡ Broken) }
        ensures stops { self.new.stops ≡ self.old.stops }
    {
        match &mut self.held {
            None => self.rows.poll(alloc, event),
            Some(held) => held.poll(alloc, &mut self.rows, event),
        }
    }

    /// The next answer that needs no more bytes; none where no whole row is left and the input may go on.
    #[inline(always)]
    pub(crate) fn at_hand(&mut self, alloc: Global) -> Option<Next>
        ensures gives { (source : SourceState)
            → GivesBy (standing source self.old) [] (given_at result) (standing source self.new) }
        ensures event { (given : came.Event) → result ≡ Some (Next.Event given)
            → (state_in self.new ≡ state_in self.old) × (self.new.stops ≡ self.old.stops) }
        ensures asks { result ≡ None → IsWaiting self.new }
        ensures end { result ≡ Some Next.End → is_whole (stop_in (state_in self.new)) ≡ true }
        ensures stop { (why : Stop) → result ≡ Some (Next.Stop why)
            → Rose self.old.stops self.new.stops × Halts why (stop_in (state_in self.new)) }
        ensures never_falls { self.old.stops ≤ self.new.stops }
        ensures memory { result ≡ Some Next.Memory → self.new.stops ≡ self.old.stops }
        ensures unasked { result ≡ None → self.new.stops ≡ self.old.stops }
        ensures still { result ≡ None → state_in self.new ≡ state_in self.old }
        ensures last { (answer : Next) → result ≡ Some answer → given_by answer ≡ []
            → last_answer (state_in self.new) ≡ Some answer }
        ensures again { (answer : Next) → last_answer (state_in self.old) ≡ Some answer
            → (result ≡ Some answer) × (state_in self.new ≡ state_in self.old) }
    {
        let mut event = None;
        match self.poll(alloc, &mut event) {
            Ok(Step::Event) => Some(Next::Event(event.unwrap())),
            Ok(Step::Stop(stop)) => {
                if stop.is_end() {
                    return Some(Next::End);
                }
                self.stops = self.stops.saturating_add(1);
                Some(Next::Stop(stop))
            }
            Ok(Step::Ask) => None,
            Err(_) => Some(Next::Memory),
        }
    }

    /// How many events were late, and passed over.
    pub fn late(&self) -> u32
        ensures { result ≡ late_in self.now }
    {
        self.rows.late()
    }

    /// What a call of the source answered, which wrote to the front of this buffer.
    pub(crate) fn take(&mut self, buffer: &[u8], read: Result<usize, Failed>)
        requires asks { IsWaiting self.old }
        requires count { IfOk read (λ n. n ≤ length buffer.now) }
        ensures takes { (before next : SourceState) → WasRead before buffer.now read next
            → TakesPiece (standing before self.old) (standing next self.new) }
        ensures stops { self.new.stops ≡ self.old.stops }
        ensures more { is_whole (stop_in (state_in self.new)) ≡ false }
    {
        self.rows.take(buffer, read);
    }
}
