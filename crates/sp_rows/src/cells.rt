// The cells of a row, cut at its commas or read byte by byte.
ghost use Rattle.std.specs.Prelude.{◌≡◌, ◌<◌, ◌≤◌, false, take, drop, length, IfOk};
ghost use Rattle.sp_base.specs.Marks.{is_mark};
ghost use Rattle.sp_rows.specs.Cells as rows;
ghost use Rattle.sp_rows.specs.Shapes.{read_as};

use crate::quoted::{Cells, Record};
use crate::split::{Fields, find_cells};
use sp_base::is_marked;
use sp_plan::Memory;

/// What a row reads as.
#[derive(Clone, Copy, Drop)]
pub(crate) enum Row<'a> {
    Blank,
    One(Fields<'a>),
    Several,
}

// What stands behind the first three bytes.
fn behind_mark(bytes: &[u8]) -> &[u8]
    requires { 3 ≤ length bytes.now }
    ensures rest { result.now ≡ drop 3 bytes.now }
    ensures shorter { length result.now < length bytes.now }
{
    &bytes[3..]
}

// The bytes without the byte order marks at their start.
fn without_marks(row: &[u8]) -> &[u8]
    ensures rest { result.now ≡ rows.without_marks row.now }
    ensures unmarked { is_mark (take 3 result.now) ≡ false }
{
    let mut rest = row;
    while is_marked(rest) {
        rest = behind_mark(rest);
    }
    rest
}

/// Reads a row, whose cells are left in the row and its places where it may be cut at its commas, or in
/// the room for a row with quotes.
pub(crate) fn read_cells<'a>(
    row: &'a [u8],
    nexts: &'a mut Vec<usize>,
    record: &'a mut Record,
) -> Result<Row<'a>, Memory>
    ensures { IfOk result (λ read. read_as read ≡ rows.row_cells row.now) }
{
    let rest = without_marks(row);
    if find_cells(rest, nexts)? {
        return Ok(Row::One(Fields {
            row: rest,
            nexts: nexts.as_slice(),
        }));
    }
    match record.read_cells(rest)? {
        Cells::Blank => Ok(Row::Blank),
        Cells::One => Ok(Row::One(record.fields())),
        Cells::Several => Ok(Row::Several),
    }
}
