// What is kept from row to row, but for the places of the columns.
ghost use Rattle.std.specs.Prelude.{◌≡◌, ◌+◌, ◌<◌, ◌^◌, pos, if◌then◌else◌, Some, None, IfOk, IfErr, IfSome, OnOk, OnErr, map, option_map, length, take};
ghost use Rattle.sp_rows.specs.Rows as spec;
ghost use Rattle.sp_rows.specs.Shapes.{column_of, fields_in};
ghost use Rattle.sp_rows.specs.Progress.{reading, ErrorIs, Gave};

use crate::clock::Clock;
use crate::columns::{Layout, Placed, place_columns, time_column};
use crate::fault::{RowError, RowFault, RowKind};
use crate::header::{Header, read_header};
use crate::split::Fields;
use crate::texts::Texts;
use crate::values::{RowValues, read_values, time_in};
use sp_plan::{Event, Memory, Plan, Values};
use std::alloc::Global;

/// How many rows were read, the last time, and the texts by their numbers.
#[derive(Drop)]
pub(crate) struct Progress {
    pub(crate) read: u32,
    clock: Clock,
    pub(crate) texts: Texts,
    /// How many texts had a number before the last row that gave an event.
    pub(crate) known: usize,
}

// A place as a column's number from 1. There is none past the last `u32`.
fn column_number(place: usize) -> Option<u32>
    ensures { IfSome result (λ number. number ≡ place + 1) }
{
    match u32::try_from(place) {
        Ok(number) => number.checked_add(1),
        Err(_) => None,
    }
}

// A column's number from 1, or 0 where there is none.
fn number_of(column: &Option<Placed>) -> Option<u32>
    ensures { IfSome result
        (λ number. number ≡ spec.place_or_none (option_map column_of column.now)) }
{
    match column {
        None => Some(0),
        Some(column) => column_number(column.place),
    }
}

impl Progress {
    /// No row was read; the texts of the plan have the first numbers.
    pub(crate) fn new(alloc: Global, plan: &Plan, loose: bool) -> Result<Progress, Memory>
        ensures start { IfOk result (λ progress. reading None progress ≡ spec.start plan.now) }
        ensures loose { IfOk result (λ progress. progress.clock.loose ≡ loose) }
    {
        Ok(Progress {
            read: 0,
            clock: Clock::new(loose),
            texts: Texts::of(alloc, plan.texts.as_slice())?,
            known: 0,
        })
    }

    /// The fault of the next row, with its column's number from 1 or 0.
    pub(crate) fn refusal(&self, kind: RowKind, column: u32) -> RowFault
        requires { self.now.read + 1 < 2 ^ 32 }
        ensures { spec.refused result ≡ spec.refused_at (reading None self.now) kind column }
    {
        RowFault {
            kind,
            row: self.read + 1,
            column,
        }
    }

    // The fault of the next row in the cell at this place from 0.
    fn refusal_at(&self, kind: RowKind, place: usize) -> RowError
        requires { self.now.read + 1 < 2 ^ 32 }
        ensures { ErrorIs (spec.refused_at (reading None self.now) kind (place + 1)) result }
    {
        match column_number(place) {
            Some(column) => RowError::Fault(self.refusal(kind, column)),
            None => RowError::Memory,
        }
    }

    // The fault of a row whose time is below the last one.
    fn back_in_time(&self, time: i64, column: &Option<Placed>) -> RowError
        requires { self.now.read + 1 < 2 ^ 32 }
        ensures { ErrorIs
            (spec.refused_at (reading None self.now) (RowKind.BackInTime self.now.clock.last time)
            (spec.place_or_none (option_map column_of column.now))) result }
    {
        let kind = RowKind::BackInTime {
            was: self.clock.last,
            now: time,
        };
        match column {
            Some(column) => self.refusal_at(kind, column.place),
            None => RowError::Fault(self.refusal(kind, 0)),
        }
    }

    /// Takes the next row as the header: the places of the columns of the plan, the columns with them, and the
    /// number of the time's from 1, or 0.
    pub(crate) fn header(
        &mut self,
        alloc: Global,
        cells: &Fields<'_>,
        plan: &Plan,
    ) -> Result<(Vec<usize>, Vec<Placed>, u32), RowError>
        requires { self.old.read + 1 < 2 ^ 32 }
        ensures header { IfOk result
            (λ given. spec.header_row plan.now (reading None self.old) (fields_in cells.now)
            ≡ spec.nothing (reading (Some given.0.items) self.new)) }
        ensures columns { IfOk result
            (λ given. map column_of given.1.items ≡ spec.columns_at plan.now given.0.items) }
        ensures time { IfOk result
            (λ given. given.2 ≡ spec.time_place (spec.columns_at plan.now given.0.items)) }
        ensures read { OnOk result (self.new.read ≡ self.old.read + 1) }
        ensures loose { self.new.clock.loose ≡ self.old.clock.loose }
        ensures texts { self.new.texts ≡ self.old.texts }
        ensures error { IfErr result
            (λ e. ErrorIs (spec.header_row plan.now (reading None self.old) (fields_in cells.now)) e) }
        ensures err { OnErr result (self.new ≡ self.old) }
    {
        match read_header(alloc, cells, plan.schema.columns.as_slice()) {
            Err(_) => Err(RowError::Memory),
            Ok(Header::Lacks(name)) => {
                Err(RowError::Fault(self.refusal(RowKind::NoColumn(name), 0)))
            }
            Ok(Header::Places(places)) => {
                let Ok(columns) = place_columns(alloc, plan, places.as_slice()) else {
                    return Err(RowError::Memory);
                };
                let Some(time) = number_of(&time_column(plan, places.as_slice())) else {
                    return Err(RowError::Memory);
                };
                self.read += 1;
                Ok((places, columns, time))
            }
        }
    }

    /// Puts in the event of the next row, which stands behind a header with these places.
    pub(crate) fn event(
        &mut self,
        alloc: Global,
        cells: &Fields<'_>,
        layout: &Layout<'_>,
        event: &mut Option<Event>,
    ) -> Result<(), RowError>
        requires { self.old.read + 1 < 2 ^ 32 }
        ensures event { OnOk result
            (Gave
            (spec.given_if self.old.clock.loose (spec.event_row layout.now.plan.now
            (reading (Some layout.now.places.now) self.old)
            (fields_in cells.now) layout.now.places.now))
            (reading (Some layout.now.places.now) self.new) event.new) }
        ensures read { OnOk result (self.new.read ≡ self.old.read + 1) }
        ensures error { IfErr result
            (λ e. ErrorIs
            (spec.event_row layout.now.plan.now (reading (Some layout.now.places.now) self.old)
            (fields_in cells.now) layout.now.places.now) e) }
        ensures kept { take (length self.old.texts) self.new.texts ≡ self.old.texts }
        ensures known { OnOk result (self.new.known ≡ length self.old.texts) }
        ensures loose { self.new.clock.loose ≡ self.old.clock.loose }
        ensures err { OnErr result (self.new ≡ self.old) }
    {
        let known = self.texts.len();
        let read = self.read_event(alloc, cells, layout, event);
        if read.is_ok() {
            self.known = known;
        } else {
            self.texts.truncate(known);
        }
        read
    }

    // The same, but that after an error new texts may be known behind those before.
    fn read_event(
        &mut self,
        alloc: Global,
        cells: &Fields<'_>,
        layout: &Layout<'_>,
        event: &mut Option<Event>,
    ) -> Result<(), RowError>
        requires { self.old.read + 1 < 2 ^ 32 }
        ensures event { OnOk result
            (Gave
            (spec.given_if self.old.clock.loose (spec.event_row layout.now.plan.now
            (reading (Some layout.now.places.now) self.old)
            (fields_in cells.now) layout.now.places.now))
            (reading (Some layout.now.places.now) self.new) event.new) }
        ensures read { OnOk result (self.new.read ≡ self.old.read + 1) }
        ensures error { IfErr result
            (λ e. ErrorIs
            (spec.event_row layout.now.plan.now (reading (Some layout.now.places.now) self.old)
            (fields_in cells.now) layout.now.places.now) e) }
        ensures same { OnErr result (self.new.read ≡ self.old.read) }
        ensures last { OnErr result (self.new.clock ≡ self.old.clock) }
        ensures kept { take (length self.old.texts) self.new.texts ≡ self.old.texts }
        ensures known { self.new.known ≡ self.old.known }
        ensures loose { self.new.clock.loose ≡ self.old.clock.loose }
    {
        let Ok(values) = Values::with_capacity(alloc, layout.columns.len()) else {
            return Err(RowError::Memory);
        };
        let own = event.insert(Event { time: 0, values });
        match read_values(alloc, cells, layout, &mut self.texts, &mut own.values) {
            Err(_) => Err(RowError::Memory),
            Ok(RowValues::Fault(kind, place)) => Err(self.refusal_at(kind, place)),
            Ok(RowValues::Whole) => {
                let time = time_in(&own.values, layout.plan.schema.time);
                if time < self.clock.last {
                    return Err(self.back_in_time(time, &time_column(layout.plan, layout.places)));
                }
                self.read += 1;
                self.clock.keep(time);
                own.time = time;
                Ok(())
            }
        }
    }
}
