// What a cell gives by the kind of its column.
ghost use Rattle.std.specs.Prelude.{◌≡◌};
ghost use Rattle.std.specs.Str.{is_utf8};
ghost use Rattle.sp_rows.specs.Rows as spec;
ghost use Rattle.sp_rows.specs.Shapes.{column_of, cell_shape, fields_in};

use crate::columns::Placed;
use crate::fault::RowKind;
use crate::numbers::{number_of, whole_number_of};
use crate::split::Fields;
use sp_plan::Kind;

/// What a cell gives: a number in units of its column, a text, or the kind of its fault.
#[derive(Drop)]
pub(crate) enum Content<'a> {
    Number(i64),
    Text(&'a [u8]),
    Fault(RowKind),
}

// Whether the bytes are UTF-8.
fn is_text(cell: &[u8]) -> bool
    ensures { result ≡ is_utf8 cell.now }
{
    if cell.is_ascii() {
        return true;
    }
    str::from_utf8(cell).is_ok()
}

// A number, or a fault where the cell writes none.
fn or_bad<'a>(number: Option<i64>) -> Content<'a>
    ensures { cell_shape result ≡ spec.or_bad number }
{
    match number {
        Some(number) => Content::Number(number),
        None => Content::Fault(RowKind::BadNumber),
    }
}

// A number that is at least 0, or a fault.
fn not_negative<'a>(number: Option<i64>) -> Content<'a>
    ensures { cell_shape result ≡ spec.not_negative number }
{
    match number {
        Some(number) if number >= 0 => Content::Number(number),
        _ => Content::Fault(RowKind::BadNumber),
    }
}

// What a cell gives by the kind of its column; a time is at least 0.
fn content_of(is_time: bool, kind: Kind, cell: &[u8]) -> Content<'_>
    ensures { cell_shape result ≡ spec.cell_of is_time kind cell.now }
{
    match (kind, is_time) {
        (Kind::Int, true) => not_negative(whole_number_of(cell)),
        (Kind::Int, false) => or_bad(whole_number_of(cell)),
        (Kind::Dec(scale), _) => or_bad(number_of(scale, cell)),
        (Kind::Text, _) => {
            if is_text(cell) {
                Content::Text(cell)
            } else {
                Content::Fault(RowKind::NotUtf8)
            }
        }
    }
}

/// What a row gives in a column; further cells of the row are ignored.
pub(crate) fn content_in<'a>(cells: &Fields<'a>, column: &Placed) -> Content<'a>
    ensures { cell_shape result ≡ spec.cell_in (fields_in cells.now) (column_of column.now) }
{
    match cells.get(column.place) {
        Some(cell) => content_of(column.is_time, column.kind, cell),
        None => Content::Fault(RowKind::MissingCell),
    }
}
