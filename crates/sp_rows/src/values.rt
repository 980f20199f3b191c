// The values of a row, or its first fault.
ghost use Rattle.std.specs.Prelude.{◌≡◌, [], length, take, IfOk, OnOk};
ghost use Rattle.sp_rows.specs.Rows as spec;
ghost use Rattle.sp_rows.specs.Shapes.{cell_shape, fields_in};
ghost use Rattle.sp_rows.specs.RowValues.{ValuesAre, TimeIs, fault_of, time_among};
ghost use Rattle.sp_rows.specs.Utf8.{GivesUtf8};

use crate::columns::Layout;
use crate::content::{Content, content_in};
use crate::fault::RowKind;
use crate::split::Fields;
use crate::texts::Texts;
use sp_plan::{Memory, Value, Values};
use std::alloc::Global;

/// What the cells of a row give.
#[derive(Drop)]
pub(crate) enum RowValues {
    /// All its values.
    Whole,
    /// The first fault, column by column in the order of the plan, with the place of its cell from 0.
    Fault(RowKind, usize),
}

// One value more, or the kind of the fault that the cell gives. Where memory is wanted, new texts may be known.
fn push_content(
    alloc: Global,
    values: &mut Values,
    texts: &mut Texts,
    content: Content<'_>,
) -> Result<Option<RowKind>, Memory>
    requires { GivesUtf8 (cell_shape content) }
    ensures value { OnOk result
        ((values.new, texts.new)
        ≡ spec.with_cell (values.old, texts.old) (cell_shape content.entry)) }
    ensures fault { IfOk result (λ fault. fault ≡ fault_of (cell_shape content.entry)) }
    ensures kept { take (length texts.old) texts.new ≡ texts.old }
{
    match content {
        Content::Number(number) => values.push(Value::Number(number))?,
        Content::Text(text) => {
            let symbol = texts.number(alloc, text)?;
            values.push(Value::Symbol(symbol))?;
        }
        Content::Fault(kind) => return Ok(Some(kind)),
    }
    Ok(None)
}

/// Puts in the values of a row, or tells its first fault. At a fault, and where memory is wanted, new
/// texts may be known behind those before, and any values may be there.
pub(crate) fn read_values(
    alloc: Global,
    cells: &Fields<'_>,
    layout: &Layout<'_>,
    texts: &mut Texts,
    values: &mut Values,
) -> Result<RowValues, Memory>
    requires { values.old ≡ [] }
    ensures given { IfOk result
        (λ given. ValuesAre
        (spec.values_of texts.old (fields_in cells.now)
        (spec.columns_at layout.now.plan.now layout.now.places.now))
        (spec.first_fault (fields_in cells.now)
        (spec.columns_at layout.now.plan.now layout.now.places.now)) values.new texts.new given) }
    ensures time { IfOk result
        (λ given. TimeIs layout.now.plan.now.schema.time
        (spec.time_of (fields_in cells.now)
        (spec.columns_at layout.now.plan.now layout.now.places.now)) values.new given) }
    ensures kept { take (length texts.old) texts.new ≡ texts.old }
{
    for column in layout.columns {
        let content = content_in(cells, column);
        if let Some(kind) = push_content(alloc, values, texts, content)? {
            return Ok(RowValues::Fault(kind, column.place));
        }
    }
    Ok(RowValues::Whole)
}

/// The time among the values of a row; 0 where there is none.
pub(crate) fn time_in(values: &Values, time: Option<u16>) -> i64
    ensures { result ≡ time_among values.now time }
{
    match time {
        None => 0,
        Some(own) => match values.get(usize::from(own)) {
            Some(Value::Number(time)) => time,
            _ => 0,
        },
    }
}
