// Rows read byte by byte as the crate csv reads them: a cell may stand in quotes, in which two stand for one.
ghost use Rattle.std.specs.Prelude.{◌≡◌, ◌≤◌, ◌++◌, ◌∷◌, [], length, OnOk, IfOk, IfSome, is_some};
ghost use Rattle.csv.specs.Machine as csv_machine;
ghost use Rattle.csv.specs.Machine.{next_record, fields_after, field_after, ends_at_end};
ghost use Rattle.csv.specs.Reading.{default_config};
ghost use Rattle.csv.specs.declared.parser.State.TheVariants as st;
ghost use Rattle.sp_rows.specs.Cells.{record_cells};
ghost use Rattle.sp_rows.specs.Quoted.{state_of, action_of, moved, read_to};
ghost use Rattle.sp_rows.specs.Shapes.{fields_in, shape_of};

use crate::split::Fields;
use sp_plan::Memory;
use std::alloc::Global;
use std::marker::Model;

/// What a row of bytes reads as.
#[derive(Clone, Copy, Drop)]
pub(crate) enum Cells {
    Blank,
    One,
    Several,
}

/// Where a reading stands.
#[derive(Clone, Copy, Drop)]
pub(crate) enum At {
    /// In front of a record.
    Record,
    /// In front of a cell.
    Cell,
    /// In a cell, or behind the quotes of one.
    Plain,
    /// Inside quotes.
    Quoted,
    /// Behind a quote inside quotes: it ends them, or is the first of two.
    Quote,
    /// Behind a carriage return that ended a record.
    Return,
}

/// What a byte does.
#[derive(Clone, Copy, Drop)]
pub(crate) enum Act {
    Skip,
    /// It joins the cell at hand.
    Keep,
    EndCell,
    EndRecord,
}

// A byte in a cell.
fn in_cell(byte: u8) -> (At, Act)
    ensures { moved result ≡ csv_machine.in_field default_config byte }
{
    if byte == b',' {
        (At::Cell, Act::EndCell)
    } else if byte == b'\r' {
        (At::Return, Act::EndRecord)
    } else if byte == b'\n' {
        (At::Record, Act::EndRecord)
    } else {
        (At::Plain, Act::Keep)
    }
}

// The first byte of a cell.
fn at_cell(byte: u8) -> (At, Act)
    ensures { moved result ≡ csv_machine.start_field default_config byte }
{
    if byte == b'"' {
        (At::Quoted, Act::Skip)
    } else {
        in_cell(byte)
    }
}

// The first byte of a record, or one of a line's end before it.
fn at_record(byte: u8) -> (At, Act)
    ensures { moved result ≡ csv_machine.start_record default_config byte }
{
    if byte == b'\r' || byte == b'\n' {
        (At::Record, Act::Skip)
    } else {
        at_cell(byte)
    }
}

// Where a byte leads, and what it does.
fn step(at: At, byte: u8) -> (At, Act)
    ensures { moved result ≡ csv_machine.step default_config (state_of at) byte }
{
    match at {
        At::Record => at_record(byte),
        At::Cell => at_cell(byte),
        At::Plain => in_cell(byte),
        At::Quoted => {
            if byte == b'"' {
                (At::Quote, Act::Skip)
            } else {
                (At::Quoted, Act::Keep)
            }
        }
        At::Quote => {
            if byte == b'"' {
                (At::Quoted, Act::Keep)
            } else {
                in_cell(byte)
            }
        }
        At::Return => {
            if byte == b'\n' {
                (At::Record, Act::Skip)
            } else {
                at_record(byte)
            }
        }
    }
}

// Whether the end of the bytes ends a record.
fn ends_record(at: At) -> bool
    ensures { result ≡ ends_at_end (state_of at) }
{
    match at {
        At::Record | At::Return => false,
        At::Cell | At::Plain | At::Quoted | At::Quote => true,
    }
}

// Whether the record ends.
fn is_end(act: Act) -> bool
    ensures { result ≡ csv_machine.is_end (action_of act) }
{
    match act {
        Act::EndRecord => true,
        Act::Skip | Act::Keep | Act::EndCell => false,
    }
}

/// Room for the cells of a row, which is used again from row to row. Contracts see the cells, and the
/// cell at hand.
#[derive(Drop)]
pub(crate) struct Record {
    // The bytes of the cells with a comma behind each, and those of the cell at hand.
    bytes: Vec<u8>,
    // The place behind each of these commas.
    nexts: Vec<usize>,
    // Where the cell at hand begins.
    start: usize,
}

impl Model for Record {
    ghost use Rattle.sp_rows.specs.Held.{Held};

    ghost Value = { Held };

    ghost use Rattle.sp_rows.specs.Holding.{held_in, AreHeld};

    ghost view = { held_in };

    ghost invariant = { AreHeld };
}

impl Record {
    /// No cell. Takes no memory.
    pub(crate) fn new(alloc: Global) -> Record
        ensures { result ≡ record { cells = []; cell = [] } }
    {
        Record {
            bytes: Vec::new(alloc),
            nexts: Vec::new(alloc),
            start: 0,
        }
    }

    /// The cells.
    pub(crate) fn fields(&self) -> Fields<'_>
        ensures { fields_in result ≡ self.now.cells }
    {
        Fields {
            row: self.bytes.as_slice(),
            nexts: self.nexts.as_slice(),
        }
    }

    // No cell, as at the start.
    fn clear(&mut self)
        ensures { self.new ≡ record { cells = []; cell = [] } }
    {
        self.bytes.clear();
        self.nexts.clear();
        self.start = 0;
    }

    // One byte more of the cell at hand.
    fn keep(&mut self, byte: u8) -> Result<(), Memory>
        ensures { OnOk result
            (self.new ≡ record { cells = self.old.cells; cell = self.old.cell ++ byte ∷ [] }) }
    {
        self.bytes.push(byte)?;
        Ok(())
    }

    // The cell at hand is the last one.
    fn end_cell(&mut self) -> Result<(), Memory>
        ensures { OnOk result
            (self.new ≡ record { cells = self.old.cells ++ self.old.cell ∷ []; cell = [] }) }
    {
        self.bytes.push(b',')?;
        let behind = self.bytes.len();
        self.nexts.push(behind)?;
        self.start = behind;
        Ok(())
    }

    // Does with a byte what it does.
    fn take(&mut self, act: Act, byte: u8) -> Result<(), Memory>
        ensures cells { OnOk result
            (self.new.cells ≡ fields_after (action_of act) self.old.cells self.old.cell) }
        ensures cell { OnOk result
            (self.new.cell ≡ field_after (action_of act) byte self.old.cell) }
    {
        match act {
            Act::Skip => Ok(()),
            Act::Keep => self.keep(byte),
            Act::EndCell | Act::EndRecord => self.end_cell(),
        }
    }

    // Reads the first record of bytes: where the reading then stands, and behind how many of the bytes.
    fn read(&mut self, bytes: &[u8]) -> Result<Option<(At, usize)>, Memory>
        ensures read { IfOk result
            (λ end. next_record default_config st.StartRecord [] [] bytes.now
            ≡ read_to bytes.now self.new.cells end) }
        ensures within { IfOk result (λ end. IfSome end (λ e. e.1 ≤ length bytes.now)) }
    {
        self.clear();
        let mut at = At::Record;
        for (place, byte) in bytes.iter().enumerate() {
            let (next, act) = step(at, *byte);
            self.take(act, *byte)?;
            if is_end(act) {
                return Ok(Some((next, place + 1)));
            }
            at = next;
        }
        if !ends_record(at) {
            return Ok(None);
        }
        self.end_cell()?;
        Ok(Some((At::Record, bytes.len())))
    }

    /// Reads the cells of bytes, which are left here where they are one record.
    pub(crate) fn read_cells(&mut self, bytes: &[u8]) -> Result<Cells, Memory>
        ensures { IfOk result (λ cells. shape_of cells self.new.cells ≡ record_cells bytes.now) }
    {
        match self.read(bytes)? {
            None => Ok(Cells::Blank),
            Some((at, size)) => {
                if has_record(&bytes[size..], at) {
                    Ok(Cells::Several)
                } else {
                    Ok(Cells::One)
                }
            }
        }
    }
}

// Whether the bytes have a record.
fn has_record(bytes: &[u8], from: At) -> bool
    ensures { result ≡ is_some (next_record default_config (state_of from) [] [] bytes.now) }
{
    let mut at = from;
    for byte in bytes {
        let (next, act) = step(at, *byte);
        if is_end(act) {
            return true;
        }
        at = next;
    }
    ends_record(at)
}
