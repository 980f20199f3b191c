// The header: the place of each column of the plan in a row.
ghost use Rattle.std.specs.Prelude.{◌≡◌, ◌<◌, [], length, slice_index_or, IfOk};
ghost use Rattle.std.specs.Str.{bytes_eq};
ghost use Rattle.sp_rows.specs.Rows as spec;
ghost use Rattle.sp_rows.specs.Numbers.{trimmed as trimmed_cell};
ghost use Rattle.sp_rows.specs.Shapes.{HeaderIs, fields_in};

use crate::numbers::trimmed;
use crate::split::Fields;
use sp_plan::{Column, Memory, Text};
use std::alloc::Global;

/// What a header gives.
#[derive(Drop)]
pub(crate) enum Header {
    /// The place of each column of the plan, from 0.
    Places(Vec<usize>),
    /// The name of the first column that it lacks.
    Lacks(Text),
}

// Whether the cell at this place has the name, but for blanks and tabs round it.
fn is_named(cells: &Fields<'_>, place: usize, name: &[u8]) -> bool
    requires { place < length (fields_in cells.now) }
    ensures { result
        ≡ bytes_eq (trimmed_cell (slice_index_or (fields_in cells.now) place [])) name.now }
{
    match cells.get(place) {
        Some(cell) => trimmed(cell) == name,
        None => false,
    }
}

// The place of a column: the first cell with its name.
fn place_of(cells: &Fields<'_>, column: &Column) -> Option<usize>
    ensures { result ≡ spec.place_of (fields_in cells.now) column.now }
{
    let name = column.name.as_str().as_bytes();
    for place in 0..cells.len() {
        if is_named(cells, place, name) {
            return Some(place);
        }
    }
    None
}

// The same text once more.
fn copy_of(alloc: Global, text: &Text) -> Result<Text, Memory>
    ensures { IfOk result (λ copy. copy ≡ text.now) }
{
    Ok(Text::of(String::from_str(alloc, text.as_str())?))
}

/// The places of these columns in a row with this header.
pub(crate) fn read_header(
    alloc: Global,
    cells: &Fields<'_>,
    columns: &[Column],
) -> Result<Header, Memory>
    ensures { IfOk result (λ header. HeaderIs (fields_in cells.now) columns.now header) }
{
    let mut places = Vec::with_capacity(alloc, columns.len())?;
    for column in columns {
        match place_of(cells, column) {
            Some(place) => places.push(place)?,
            None => return Ok(Header::Lacks(copy_of(alloc, &column.name)?)),
        }
    }
    Ok(Header::Places(places))
}
