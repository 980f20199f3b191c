ghost use Rattle.std.specs.Prelude.{◌≡◌};
ghost use Rattle.sp_rows.specs.Codes.{code_of};

use sp_plan::Text;

/// What is wrong with a row.
#[derive(Drop)]
pub enum RowKind {
    /// The input has no header.
    NoHeader,
    /// The header lacks this column of the plan.
    NoColumn(Text),
    /// The row has too few cells.
    MissingCell,
    /// The cell writes no number of its column's kind, or one past 10^15, or a time below 0.
    BadNumber,
    /// The cell of a text is not UTF-8.
    NotUtf8,
    /// The time is below that of the event before.
    BackInTime { was: i64, now: i64 },
    /// The row reads as more than one record.
    TwoRows,
}

impl RowKind {
    /// The printed code: 1 to 7, in the order of the kinds.
    pub fn code(&self) -> u8
        ensures { result ≡ code_of self.now }
    {
        match self {
            RowKind::NoHeader => 1,
            RowKind::NoColumn(_) => 2,
            RowKind::MissingCell => 3,
            RowKind::BadNumber => 4,
            RowKind::NotUtf8 => 5,
            RowKind::BackInTime { .. } => 6,
            RowKind::TwoRows => 7,
        }
    }
}

/// A faulty row.
#[derive(Drop)]
pub struct RowFault {
    pub kind: RowKind,
    /// The row's number from 1, blank ones counted; 0 where the input has no header.
    pub row: u32,
    /// The cell's place from 1, or 0 where the fault is at no cell.
    pub column: u32,
}

/// Why a row gives no event.
#[derive(Drop)]
pub enum RowError {
    Fault(RowFault),
    Memory,
}
