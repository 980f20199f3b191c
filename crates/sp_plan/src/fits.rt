// Whether an event has the values that a plan's schema asks for.
ghost use Rattle.std.specs.Prelude.{◌≡◌, length};
ghost use Rattle.std.specs.List.{list_all, zip};
ghost use Rattle.sp_plan.specs.Events.{fits, fits_kind, fits_column};

use crate::{Column, Event, Kind, Plan, Value, Values};
use sp_base::limits::NUMBER_LIMIT;

// The greatest magnitude of a number of the input, and the last time.
const GREATEST: i64 = NUMBER_LIMIT as i64;

fn fits_kind(kind: Kind, value: Value) -> bool
    ensures { result ≡ fits_kind kind value }
{
    match (kind, value) {
        (Kind::Int | Kind::Dec(_), Value::Number(n)) => n.unsigned_abs() <= GREATEST as u64,
        (Kind::Text, Value::Symbol(_)) => true,
        _ => false,
    }
}

fn fit_columns(columns: &[Column], values: &Values) -> bool
    requires { length columns.now ≡ length values.now }
    ensures { result ≡ list_all fits_column (zip columns.now values.now) }
{
    for (place, column) in columns.iter().enumerate() {
        let Some(value) = values.get(place) else {
            return false;
        };
        if !fits_kind(column.kind, value) {
            return false;
        }
    }
    true
}

impl Plan {
    /// Whether the event has one value of the right sort for each column, each number is at most
    /// 10^15 in magnitude, and the time is 0 to 10^15.
    pub fn fits(&self, event: &Event) -> bool
        ensures { result ≡ fits self.now event.now }
    {
        let columns = self.schema.columns.as_slice();
        columns.len() == event.values.len()
            && fit_columns(columns, &event.values)
            && 0 <= event.time
            && event.time <= GREATEST
    }
}
