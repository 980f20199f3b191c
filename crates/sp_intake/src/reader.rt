ghost use Rattle.std.specs.Prelude.{◌≡◌, ◌≤◌, ◌<◌, ◌+◌, ◌-◌, pos, ◌≤ℤ◌, [], true, false, Ok, Some, None, IsSome, IsErr, OnErr, length, map, string_bytes, IfOk, if◌then◌else◌};
ghost use Rattle.std.specs.Arc.{arc_value};
ghost use Rattle.sp_base.specs.Limits.{event_limit, number_limit};
ghost use Rattle.sp_cut.specs.CutRows.{long_row, open_quote};
ghost use Rattle.sp_io.specs.Outside.{SourceState};
ghost use Rattle.sp_plan.specs.Compiled.{IsCompiled};
ghost use Rattle.sp_plan.specs.declared.event.Event as came;
ghost use Rattle.sp_rows.specs.Codes.{code_of};
ghost use Rattle.sp_rows.specs.Progress.{read_of};
ghost use Rattle.sp_intake.specs.Latest.{latest_of};
ghost use Rattle.sp_intake.specs.declared.reader.State.TheVariants.{Going, Stopped, Broken};
ghost use Rattle.sp_intake.specs.Reader.{HasCounted};

use crate::latest::Latest;
use sp_base::limits::EVENT_LIMIT;
use sp_cut::{CutFault, Cutter};
use sp_io::Failed;
use sp_plan::{Event, Memory, Plan};
use sp_ports::{Failure, Stop};
use sp_rows::{RowError, RowFault, Rows};
use sp_slack::LateRule;
use std::alloc::{AllocError, Global};
use std::sync::Arc;

// The most rows that an input may have.
const ROWS: u32 = 2_097_152;

// The code of a row whose event is late.
const LATE: u8 = 6;

/// Whether an input goes on.
#[derive(Clone, Copy, Drop)]
pub(crate) enum State {
    Going,
    Stopped(Stop),
    /// Memory ran out, and what was read then is lost.
    Broken,
}

/// What a reader comes to. An error beside it is want of memory.
#[derive(Clone, Copy, Drop)]
pub(crate) enum Step {
    /// An event, which was put in.
    Event,
    Stop(Stop),
    /// No row is left, and the input may go on.
    Ask,
}

/// What looking for a row comes to: a step that tells of no stop, since the state does.
#[derive(Clone, Copy, Drop)]
pub(crate) enum Took {
    /// An event, which was put in.
    Event,
    /// The row gave no event.
    Nothing,
    /// No row is left, and the input may go on.
    Ask,
    /// The input goes on no more.
    Over,
}

/// What becomes of an event that a row gave.
#[derive(Clone, Copy, Drop)]
pub(crate) enum Fate {
    Kept,
    /// It is late, and only counted.
    PassedOver,
    /// It is late, and the reading stops at it.
    Late,
    /// The reading stops at it, since as many events were given as may be.
    Full,
}

/// Reads the events of rows, in whatever pieces their bytes come: up to the end of the input, to the first row
/// that fails, to a limit or to a fault of the source. Each event may be behind the greatest time before it by a
/// slack; one that is further behind is late, and stops the reading or is passed over. It stores no event.
#[derive(Drop)]
pub(crate) struct RowReader {
    cutter: Cutter,
    rows: Rows,
    // How many events the rows gave, and how many they may give: the limit, less those that were passed over.
    given: u32,
    most: u32,
    // The greatest time of the events that they gave.
    latest: Latest,
    slack: i64,
    rule: LateRule,
    state: State,
    ghost sound: { state ≡ Going → HasCounted cutter rows (read_of rows).read },
    ghost few: { given + (event_limit - most) ≤ event_limit },
    ghost limited: { most ≤ event_limit },
    ghost least_slack: { pos 0 ≤ℤ slack },
    ghost most_slack: { slack ≤ℤ pos number_limit },
}

impl RowReader {
    ghost use Rattle.sp_intake.specs.Standing.{Reads, Since, WasRead, going, IsHungry, stop_in, is_whole, given_in, given_after, state_after, given_where, is_over, goes_on};
    ghost use Rattle.sp_intake.specs.Pieces.{RowsTake};
    ghost use Rattle.sp_intake.specs.RowsSeen.{lateness_of, reader_of, rows_at, IsAsking};
    ghost use Rattle.sp_intake.specs.Reader.{Fails, texts_of, fate, late_failure};
    ghost use Rattle.sp_intake.specs.Reading.{end_stop};
    ghost use Rattle.sp_rows.specs.Progress.{plan_of};

    /// Nothing was read yet. The slack is at most the greatest time.
    pub(crate) fn new(
        alloc: Global,
        plan: &Arc<Plan>,
        slack: i64,
        rule: LateRule,
    ) -> Result<RowReader, Memory>
        requires compiled { IsCompiled (arc_value plan.now) }
        requires low { pos 0 ≤ℤ slack }
        requires high { slack ≤ℤ pos number_limit }
        ensures since { IfOk result (λ rows. (source : SourceState) → source.ended ≡ false
            → Since (arc_value plan.now) (record { slack = slack; rule = rule }) source [] []
            (rows_at source rows)) }
        ensures plan { IfOk result (λ rows. plan_of rows.rows ≡ arc_value plan.now) }
        ensures lateness { IfOk result (λ rows.
            lateness_of rows ≡ record { slack = slack; rule = rule }) }
        ensures state { IfOk result (λ rows. rows.state ≡ Going) }
        ensures given { IfOk result (λ rows. rows.given ≡ 0) }
        ensures greatest { IfOk result (λ rows. latest_of rows.latest.time ≡ None) }
    {
        Ok(RowReader {
            cutter: Cutter::new(alloc),
            rows: Rows::loose(alloc, Arc::try_clone(plan)?)?,
            given: 0,
            most: EVENT_LIMIT,
            latest: Latest::none(),
            slack,
            rule,
            state: State::Going,
        })
    }

    // Why the row stops the reading whose event is late.
    #[inline(never)]
    fn late_row(&self) -> Failure
        ensures { result ≡ late_failure (reader_of self.now) }
    {
        Failure::Row {
            code: LATE,
            row: self.rows.count(),
            column: self.rows.time_column(),
        }
    }

    // What becomes of an event of this time, which the last row gave.
    #[inline(always)]
    fn fate(&self, time: i64) -> Fate
        requires low { pos 0 ≤ℤ time }
        ensures { (e : came.Event) → e.time ≡ time → result ≡ fate (reader_of self.now) e }
    {
        let late = self.latest.is_late(self.slack, time);
        if late && matches!(self.rule, LateRule::Refuse) {
            return Fate::Late;
        }
        if self.given == self.most {
            return Fate::Full;
        }
        if late { Fate::PassedOver } else { Fate::Kept }
    }

    // Takes the next row that counts, if there is one: what it comes to, or nothing where it gives no event.
    #[inline(always)]
    fn take_row(&mut self, alloc: Global, event: &mut Option<Event>) -> Result<Option<Step>, Memory>
        requires going { self.old.state ≡ Going }
        ensures reads { (source : SourceState)
            → Reads (going source (reader_of self.old)) [] (given_after result event.new)
            (record { source = source; state = state_after result; reader = reader_of self.new }) }
        ensures some { result ≡ Ok (Some Step.Event) → IsSome event.new }
        ensures hungry { result ≡ Ok (Some Step.Ask) → IsHungry (reader_of self.new) }
        ensures going { self.new.state ≡ Going }
        ensures lateness { lateness_of self.new ≡ lateness_of self.old }
    {
        // a law: what is no row now is none whatever comes behind
        sp_cut::law::rows_stay();
        let span = match self.cutter.find_row() {
            Ok(Some(span)) => span,
            Ok(None) => return Ok(Some(self.at_end())),
            Err(CutFault::LongRow { row: _ }) => return Ok(Some(failed(self.refusal(8)))),
            Err(CutFault::OpenQuote { row: _ }) => return Ok(Some(failed(self.refusal(9)))),
            Err(CutFault::Memory) => return Err(AllocError),
        };
        if self.rows.count() == ROWS {
            return Ok(Some(failed(Failure::Limit { limit: ROWS })));
        }
        match self.rows.row_into(alloc, self.cutter.row_at(span), event) {
            Ok(()) => {}
            Err(RowError::Fault(fault)) => return Ok(Some(failed(failure_at(&fault)))),
            Err(RowError::Memory) => return Err(AllocError),
        }
        self.cutter.pass(span);
        let Some(given) = event else {
            return Ok(None);
        };
        let time = given.time;
        match self.fate(time) {
            Fate::Kept => {}
            Fate::PassedOver => {
                self.most -= 1;
                return Ok(None);
            }
            Fate::Late => {
                let failure = self.late_row();
                // its row is faulty, and brings no text
                self.rows.forget_texts();
                return Ok(Some(failed(failure)));
            }
            Fate::Full => return Ok(Some(failed(Failure::Limit { limit: EVENT_LIMIT }))),
        }
        self.latest = self.latest.with(time);
        self.given += 1;
        Ok(Some(Step::Event))
    }

    // The same, where a stop is put in the state. What it answers fits a register, and that is done at each row.
    #[inline(never)]
    fn next_row(&mut self, alloc: Global, event: &mut Option<Event>) -> Took
        requires going { self.old.state ≡ Going }
        ensures reads { (source : SourceState)
            → Reads (going source (reader_of self.old)) [] (given_where result event.new)
            (rows_at source self.new) }
        ensures some { result ≡ Took.Event → IsSome event.new }
        ensures hungry { result ≡ Took.Ask → IsHungry (reader_of self.new) }
        ensures going { is_over result ≡ false → self.new.state ≡ Going }
        ensures over { result ≡ Took.Over → goes_on self.new.state ≡ false }
        ensures lateness { lateness_of self.new ≡ lateness_of self.old }
    {
        match self.take_row(alloc, event) {
            Ok(Some(Step::Event)) => Took::Event,
            Ok(None) => Took::Nothing,
            Ok(Some(Step::Ask)) => Took::Ask,
            Ok(Some(Step::Stop(stop))) => {
                self.state = State::Stopped(stop);
                Took::Over
            }
            Err(_) => {
                self.state = State::Broken;
                Took::Over
            }
        }
    }

    // What comes where no row is left.
    fn at_end(&self) -> Step
        ensures { result ≡ (if self.now.cutter.ended then Step.Stop
            (end_stop (read_of self.now.rows).places) else Step.Ask) }
    {
        if !self.cutter.has_ended() {
            return Step::Ask;
        }
        match self.rows.end() {
            Ok(()) => Step::Stop(Stop::End),
            Err(fault) => failed(failure_at(&fault)),
        }
    }

    // Why there is no row in place of the next one, which has this code.
    fn refusal(&self, code: u8) -> Failure
        requires going { self.now.state ≡ Going }
        ensures long { code ≡ 8
            → Fails long_row result (texts_of (reader_of self.now)) (reader_of self.now) }
        ensures open { code ≡ 9
            → Fails open_quote result (texts_of (reader_of self.now)) (reader_of self.now) }
    {
        if self.rows.count() == ROWS {
            return Failure::Limit { limit: ROWS };
        }
        Failure::Row {
            code,
            row: self.rows.count() + 1,
            column: 0,
        }
    }

    /// Puts in the next event, or tells why there is none.
    #[inline(always)]
    pub(crate) fn poll(&mut self, alloc: Global, event: &mut Option<Event>) -> Result<Step, Memory>
        ensures reads { (source : SourceState)
            → Reads (rows_at source self.old) [] (given_in result event.new)
            (rows_at source self.new) }
        ensures some { result ≡ Ok Step.Event → IsSome event.new }
        ensures asks { result ≡ Ok Step.Ask → IsAsking self.new }
        ensures stop { (why : Stop) → result ≡ Ok (Step.Stop why)
            → stop_in self.new.state ≡ Some why }
        ensures still { result ≡ Ok Step.Ask → self.new.state ≡ self.old.state }
        ensures event { result ≡ Ok Step.Event → self.new.state ≡ self.old.state }
        ensures stopped { (why : Stop) → self.old.state ≡ Stopped why
            → (result ≡ Ok (Step.Stop why)) × (self.new.state ≡ self.old.state) }
        ensures broken { self.old.state ≡ Broken → IsErr result }
        ensures breaks { OnErr result (self.new.state ≡ Broken) }
        ensures lateness { lateness_of self.new ≡ lateness_of self.old }
    {
        match self.state {
            State::Going => {}
            State::Stopped(stop) => return Ok(Step::Stop(stop)),
            State::Broken => return Err(AllocError),
        }
        for _ in 0..u64::MAX {
            match self.next_row(alloc, event) {
                Took::Nothing => {}
                Took::Event => return Ok(Step::Event),
                Took::Ask => return Ok(Step::Ask),
                Took::Over => match self.state {
                    State::Stopped(why) => return Ok(Step::Stop(why)),
                    _ => return Err(AllocError),
                },
            }
        }
        self.state = State::Broken;
        Err(AllocError)
    }

    /// What a call of the source answered, which wrote to the front of this buffer.
    pub(crate) fn take(&mut self, buffer: &[u8], read: Result<usize, Failed>)
        requires asks { IsAsking self.old }
        requires count { IfOk read (λ n. n ≤ length buffer.now) }
        ensures takes { (before next : SourceState) → WasRead before buffer.now read next
            → RowsTake (rows_at before self.old) (rows_at next self.new) }
        ensures more { is_whole (stop_in self.new.state) ≡ false }
        ensures reader { reader_of self.new
            ≡ record (reader_of self.old) { cutter = (reader_of self.new).cutter } }
        ensures lateness { lateness_of self.new ≡ lateness_of self.old }
    {
        match read {
            Ok(0) => self.cutter.end(),
            Ok(count) => {
                if self.cutter.feed(&buffer[..count]).is_err() {
                    self.state = State::Broken;
                }
            }
            Err(_) => self.state = State::Stopped(Stop::Open),
        }
    }

    /// Whether the input goes on.
    pub(crate) fn state(&self) -> State
        ensures { result ≡ self.now.state }
    {
        self.state
    }

    /// The greatest time of the events that were given.
    pub(crate) fn latest(&self) -> Latest
        ensures { result ≡ self.now.latest }
    {
        self.latest
    }

    /// Memory ran out: what was read is lost, and with it the last event that was given. Before it this was the
    /// greatest time.
    pub(crate) fn lose(&mut self, latest: Latest)
        requires some { 0 < self.old.given }
        ensures reader { reader_of self.new ≡ record (reader_of self.old)
            { given = self.old.given - 1; greatest = latest_of latest.time } }
        ensures state { self.new.state ≡ Broken }
    {
        self.given -= 1;
        self.latest = latest;
        self.state = State::Broken;
    }

    /// Memory ran out, and what was read is lost.
    pub(crate) fn break_off(&mut self)
        ensures reader { reader_of self.new ≡ reader_of self.old }
        ensures state { self.new.state ≡ Broken }
    {
        self.state = State::Broken;
    }

    /// The texts by their numbers.
    pub(crate) fn texts(&self, alloc: Global) -> Result<Vec<String>, Memory>
        ensures { IfOk result
            (λ texts. map string_bytes texts.items ≡ texts_of (reader_of self.now)) }
    {
        let mut texts = Vec::with_capacity(alloc, self.rows.text_count())?;
        for number in 0..u32::MAX {
            match self.rows.text(number) {
                Some(text) => texts.push(String::from_str(alloc, text)?)?,
                None => return Ok(texts),
            }
        }
        Err(AllocError)
    }

    /// How many events were late, and passed over.
    pub(crate) fn late(&self) -> u32
        ensures { result ≡ (reader_of self.now).late }
    {
        EVENT_LIMIT - self.most
    }
}

// The stop at a row that fails.
fn failed(failure: Failure) -> Step
    ensures { result ≡ Step.Stop (Stop.Failed failure) }
{
    Step::Stop(Stop::Failed(failure))
}

// The failure of a faulty row.
fn failure_at(fault: &RowFault) -> Failure
    ensures { result ≡ Failure.Row (code_of fault.now.kind) fault.now.row fault.now.column }
{
    Failure::Row {
        code: fault.kind.code(),
        row: fault.row,
        column: fault.column,
    }
}
