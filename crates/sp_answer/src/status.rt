ghost use Rattle.std.specs.Prelude.{◌≡◌, IfOk, string_bytes};
ghost use Rattle.sp_answer.specs.Outcome.{number_of, line_of};

use crate::Memory;
use std::alloc::Global;

/// What the program ends with.
#[derive(Clone, Copy, Drop, PartialEq, Eq)]
pub enum Status {
    /// The command is done, and the input was read to its end.
    Done,
    /// The same where events that come too late are passed over: so many rows were, which may be none.
    DoneLate { rows: u32 },
    Memory,
    Usage,
    /// The query's text has this fault, which stands there.
    Query { code: u8, place: u32 },
    /// The second query of a graph has this fault, which stands there in its text.
    Second { code: u8, place: u32 },
    /// What the first query of a graph returns has this fault, which stands there in its text.
    Returns { code: u8, place: u32 },
    /// A faulty row: the fault's code, the row and the cell's place.
    Input { code: u8, row: u32, column: u32 },
    Read,
    Write,
    /// The input has more rows or more events than this, or the query, what it returns, the schedule or the listing more
    /// bytes; or what is returned has a number past this in magnitude, or is so many events already.
    Limited { limit: u64 },
    /// This line of a schedule, from 1, is the first that is neither blank nor a step.
    Schedule { line: u32 },
    /// This line of a listing, from 1, is the first that is neither that of a window nor that of a match behind one.
    ListingLine { line: u32 },
    /// At this window, from 1, a listing first differs from that of the run.
    ListingWindow { window: u32 },
}

impl Status {
    /// The number that the program ends with.
    pub fn number(self) -> u8
        ensures { result ≡ number_of self }
    {
        match self {
            Status::Done | Status::DoneLate { rows: _ } => 0,
            Status::Memory => 1,
            Status::Usage => 2,
            Status::Query { code: _, place: _ }
            | Status::Second { code: _, place: _ }
            | Status::Returns { code: _, place: _ } => 3,
            Status::Input {
                code: _,
                row: _,
                column: _,
            } => 4,
            Status::Read => 5,
            Status::Write => 6,
            Status::Limited { limit: _ } => 7,
            Status::Schedule { line: _ } => 8,
            Status::ListingLine { line: _ } | Status::ListingWindow { window: _ } => 9,
        }
    }

    /// The line that is written to the error output. `Done` alone has none.
    pub fn line(self, alloc: Global) -> Result<String, Memory>
        ensures { IfOk result (λ line. string_bytes line ≡ line_of self) }
    {
        match self {
            Status::Done => Ok(String::new(alloc)),
            Status::DoneLate { rows } => format!(in alloc; "late {rows}\n"),
            Status::Memory => String::from_str(alloc, "memory\n"),
            Status::Usage => String::from_str(alloc, "usage\n"),
            Status::Query { code, place } => format!(in alloc; "query code {code} at {place}\n"),
            Status::Second { code, place } => format!(in alloc; "second code {code} at {place}\n"),
            Status::Returns { code, place } => format!(in alloc; "return code {code} at {place}\n"),
            Status::Input { code, row, column } => {
                format!(in alloc; "input code {code} row {row} column {column}\n")
            }
            Status::Read => String::from_str(alloc, "read fault\n"),
            Status::Write => String::from_str(alloc, "write fault\n"),
            Status::Limited { limit } => format!(in alloc; "limit {limit}\n"),
            Status::Schedule { line } => format!(in alloc; "schedule line {line}\n"),
            Status::ListingLine { line } => format!(in alloc; "listing line {line}\n"),
            Status::ListingWindow { window } => format!(in alloc; "listing window {window}\n"),
        }
    }
}
