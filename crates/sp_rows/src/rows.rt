ghost use Rattle.std.specs.Prelude.{◌≡◌, ◌<◌, ◌+◌, true, false, if◌then◌else◌, is_ok, length, map, take, None, IsSome, IfOk, IfErr, OnOk, OnErr, option_map};
ghost use Rattle.std.specs.Arc.{arc_value};
ghost use Rattle.std.specs.List.{slice_get};
ghost use Rattle.std.specs.Option.{ForSome};
ghost use Rattle.sp_rows.specs.Rows as spec;
ghost use Rattle.sp_rows.specs.Shapes.{column_of};

use crate::cells::{Row, read_cells};
use crate::columns::{Layout, Placed};
use crate::fault::{RowError, RowFault, RowKind};
use crate::progress::Progress;
use crate::quoted::Record;
use sp_plan::{Event, Memory, Plan};
use std::alloc::Global;
use std::sync::Arc;

/// Reads rows of CSV: the first one that is not blank is the header, and each later one that is not
/// blank gives an event.
#[derive(Drop)]
pub struct Rows {
    plan: Arc<Plan>,
    places: Option<Vec<usize>>,
    // The columns of the plan at these places, and none before the header.
    columns: Vec<Placed>,
    // The number of the time's column from 1, or 0.
    time_column: u32,
    progress: Progress,
    // Room for the places of a row's cells, and for those of a row with quotes.
    nexts: Vec<usize>,
    record: Record,
    ghost placed: { ForSome places (λ own. map column_of columns.items ≡ spec.columns_at (arc_value plan) own.items) },
    ghost timed: { time_column ≡ spec.time_place_in (arc_value plan) (option_map (λ own. own.items) places) },
}

impl Rows {
    ghost use Rattle.sp_rows.specs.Progress.{plan_of, read_of, with_texts_below, known_before, is_loose, Answers, no_header, given_as};

    // No row was read, and times may go back or not.
    fn begin(alloc: Global, plan: Arc<Plan>, loose: bool) -> Result<Rows, Memory>
        ensures plan { IfOk result (λ rows. plan_of rows ≡ arc_value plan) }
        ensures start { IfOk result (λ rows. read_of rows ≡ spec.start (arc_value plan)) }
        ensures loose { IfOk result (λ rows. is_loose rows ≡ loose) }
    {
        let progress = Progress::new(alloc, &plan, loose)?;
        Ok(Rows {
            plan,
            places: None,
            columns: Vec::new(alloc),
            time_column: 0,
            progress,
            nexts: Vec::new(alloc),
            record: Record::new(alloc),
        })
    }

    /// No row was read. The texts of the plan have the first numbers.
    pub fn new(alloc: Global, plan: Arc<Plan>) -> Result<Rows, Memory>
        ensures plan { IfOk result (λ rows. plan_of rows ≡ arc_value plan) }
        ensures start { IfOk result (λ rows. read_of rows ≡ spec.start (arc_value plan)) }
        ensures strict { IfOk result (λ rows. is_loose rows ≡ false) }
    {
        Rows::begin(alloc, plan, false)
    }

    /// The same for rows whose times may go back: none is at fault for its time.
    pub fn loose(alloc: Global, plan: Arc<Plan>) -> Result<Rows, Memory>
        ensures plan { IfOk result (λ rows. plan_of rows ≡ arc_value plan) }
        ensures start { IfOk result (λ rows. read_of rows ≡ spec.start (arc_value plan)) }
        ensures loose { IfOk result (λ rows. is_loose rows ≡ true) }
    {
        Rows::begin(alloc, plan, true)
    }

    /// How many rows were read.
    pub fn count(&self) -> u32
        ensures { result ≡ (read_of self.now).read }
    {
        self.progress.read
    }

    /// The number of the time's cell from 1; 0 where the plan has no time, or no header came.
    pub fn time_column(&self) -> u32
        ensures { result ≡ spec.time_place_in (plan_of self.now) (read_of self.now).places }
    {
        self.time_column
    }

    /// How many texts have a number: those of the plan, and those of the rows that were read.
    pub fn text_count(&self) -> usize
        ensures { result ≡ length (read_of self.now).texts }
    {
        self.progress.texts.len()
    }

    /// The text of this number; None where no text has it.
    pub fn text(&self, number: u32) -> Option<&str>
        ensures { option_map (λ text. text.now) result ≡ slice_get (read_of self.now).texts number }
    {
        self.progress.texts.get(number)
    }

    /// Forgets the texts that the last row with an event brought, and nothing else: those that `row_into` found
    /// with no number. Takes no memory.
    pub fn forget_texts(&mut self)
        ensures plan { plan_of self.new ≡ plan_of self.old }
        ensures read { read_of self.new
            ≡ with_texts_below (known_before self.old) (read_of self.old) }
        ensures loose { is_loose self.new ≡ is_loose self.old }
    {
        self.progress.texts.truncate(self.progress.known);
    }

    /// The event of the next row, which comes without its line feed; None where the row is blank or the
    /// header. At most 2,097,153 rows may be read. A fault tells the row, the cell and what is wrong
    /// there. After any error all is as before, so that the row may be given again.
    pub fn row(&mut self, alloc: Global, row: &[u8]) -> Result<Option<Event>, RowError>
        requires { (read_of self.old).read < 2097153 }
        ensures plan { plan_of self.new ≡ plan_of self.old }
        ensures read { (read_of self.new).read
            ≡ (read_of self.old).read + (if is_ok result then 1 else 0) }
        ensures answers { Answers (spec.given_if (is_loose self.old)
            (spec.row_result (plan_of self.old) (read_of self.old) row.now))
            (read_of self.old) (read_of self.new) result }
        ensures kept { take (length (read_of self.old).texts) (read_of self.new).texts
            ≡ (read_of self.old).texts }
        ensures loose { is_loose self.new ≡ is_loose self.old }
    {
        let mut event = None;
        match self.row_into(alloc, row, &mut event) {
            Ok(()) => Ok(event),
            Err(error) => Err(error),
        }
    }

    /// The same for an event that is handed in: the next row's is put in its place, or none where the row
    /// is blank or the header. After an error any event may be there, and all else is as before.
    pub fn row_into(
        &mut self,
        alloc: Global,
        row: &[u8],
        event: &mut Option<Event>,
    ) -> Result<(), RowError>
        requires { (read_of self.old).read < 2097153 }
        ensures plan { plan_of self.new ≡ plan_of self.old }
        ensures read { (read_of self.new).read
            ≡ (read_of self.old).read + (if is_ok result then 1 else 0) }
        ensures answers { Answers (spec.given_if (is_loose self.old)
            (spec.row_result (plan_of self.old) (read_of self.old) row.now))
            (read_of self.old) (read_of self.new) (given_as result event.new) }
        ensures kept { take (length (read_of self.old).texts) (read_of self.new).texts
            ≡ (read_of self.old).texts }
        ensures known { OnOk result (IsSome event.new
            → known_before self.new ≡ length (read_of self.old).texts) }
        ensures loose { is_loose self.new ≡ is_loose self.old }
    {
        let cells = match read_cells(row, &mut self.nexts, &mut self.record) {
            Err(_) => return Err(RowError::Memory),
            Ok(Row::Blank) => {
                self.progress.read += 1;
                *event = None;
                return Ok(());
            }
            Ok(Row::Several) => {
                return Err(RowError::Fault(self.progress.refusal(RowKind::TwoRows, 0)));
            }
            Ok(Row::One(cells)) => cells,
        };
        if let Some(places) = &self.places {
            let layout = Layout {
                plan: &self.plan,
                places,
                columns: self.columns.as_slice(),
            };
            return self.progress.event(alloc, &cells, &layout, event);
        }
        *event = None;
        match self.progress.header(alloc, &cells, &self.plan) {
            Ok((places, columns, time)) => {
                self.places = Some(places);
                self.columns = columns;
                self.time_column = time;
                Ok(())
            }
            Err(error) => Err(error),
        }
    }

    /// The end of the input. It is at fault where no header came.
    pub fn end(&self) -> Result<(), RowFault>
        ensures ended { OnOk result (IsSome (read_of self.now).places) }
        ensures headless { OnErr result ((read_of self.now).places ≡ None) }
        ensures fault { IfErr result (λ fault. fault ≡ no_header) }
    {
        if self.places.is_some() {
            return Ok(());
        }
        Err(RowFault {
            kind: RowKind::NoHeader,
            row: 0,
            column: 0,
        })
    }
}
