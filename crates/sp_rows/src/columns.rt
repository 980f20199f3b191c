// The columns of the plan with their places in a row.
ghost use Rattle.std.specs.Prelude.{◌≡◌, map, option_map, IfOk};
ghost use Rattle.std.specs.List.{slice_get, find};
ghost use Rattle.sp_rows.specs.Rows.{is_place, columns_at};
ghost use Rattle.sp_rows.specs.Shapes.{column_of};

use sp_plan::{Kind, Memory, Plan};
use std::alloc::Global;

/// A column of the plan: whether it is the time's, its kind, and its place in a row from 0.
#[derive(Clone, Copy, Drop)]
pub(crate) struct Placed {
    pub(crate) is_time: bool,
    pub(crate) kind: Kind,
    pub(crate) place: usize,
}

/// A header of a plan: the places of its columns, and the columns with them.
#[derive(Clone, Copy, Drop)]
pub(crate) struct Layout<'a> {
    pub(crate) plan: &'a Plan,
    pub(crate) places: &'a [usize],
    pub(crate) columns: &'a [Placed],
    ghost placed: { map column_of columns.now ≡ columns_at plan.now places.now },
}

// Whether the column of this number is the time's.
fn is_time(time: Option<u16>, number: usize) -> bool
    ensures { result ≡ is_place time number }
{
    match time {
        Some(own) => usize::from(own) == number,
        None => false,
    }
}

// The column of this number from 0, if it has a place.
fn column_at(plan: &Plan, places: &[usize], number: usize) -> Option<Placed>
    ensures { option_map column_of result ≡ slice_get (columns_at plan.now places.now) number }
{
    let column = plan.schema.columns.as_slice().get(number)?;
    let place = places.get(number)?;
    Some(Placed {
        is_time: is_time(plan.schema.time, number),
        kind: column.kind,
        place: *place,
    })
}

/// The column of the time, if the plan has one.
pub(crate) fn time_column(plan: &Plan, places: &[usize]) -> Option<Placed>
    ensures { option_map column_of result
        ≡ find (λ column. column.is_time) (columns_at plan.now places.now) }
{
    match plan.schema.time {
        None => None,
        Some(own) => column_at(plan, places, usize::from(own)),
    }
}

/// All columns that have a place.
pub(crate) fn place_columns(
    alloc: Global,
    plan: &Plan,
    places: &[usize],
) -> Result<Vec<Placed>, Memory>
    ensures { IfOk result
        (λ columns. map column_of columns.items ≡ columns_at plan.now places.now) }
{
    let mut columns = Vec::with_capacity(alloc, places.len())?;
    for number in 0..places.len() {
        match column_at(plan, places, number) {
            Some(column) => columns.push(column)?,
            None => return Ok(columns),
        }
    }
    Ok(columns)
}
