// The columns of a query, and those of its plan.
ghost use Rattle.std.specs.Prelude.{◌≡◌, ◌≤◌, ◌&&◌, [], length, map, nat_le, not, IfOk};
ghost use Rattle.std.specs.List.{All};
ghost use Rattle.sp_lex.specs.declared.token.Word.TheVariants as w;
ghost use Rattle.sp_compile.specs.Answers.{IsNamed};
ghost use Rattle.sp_compile.specs.Checks as checks;
ghost use Rattle.sp_compile.specs.Stands as stands;

use crate::CompileFault;
use crate::lookup::column_place;
use sp_plan::{Column, Kind, Listed, Schema, Text};
use sp_query::{Ident, Query, QueryColumn, Word};
use std::alloc::{AllocError, Global};

/// How many columns a query may have.
const MOST_COLUMNS: usize = 64;

/// How many digits may follow DEC.
const MOST_DIGITS: u64 = 6;

// Whether the kind has digits behind it that it may not have.
fn has_wrong_digits(column: &QueryColumn) -> bool
    ensures { result
        ≡ (checks.is_decimal column.now.kind
        && not (nat_le 1 column.now.digits && nat_le column.now.digits 6)) }
{
    column.kind == Word::Dec && !(1..=MOST_DIGITS).contains(&column.digits)
}

// What is wrong in a column behind these.
fn column_fault(before: &[QueryColumn], column: &QueryColumn) -> Option<CompileFault>
    ensures { result
        ≡ checks.column_fault (map (λ column. column.name.text) before.now) column.now }
{
    if before.len() >= MOST_COLUMNS {
        Some(CompileFault::TooMany(column.name.span))
    } else if column_place(before, &column.name.text).is_some() {
        Some(CompileFault::Twice(column.name.span))
    } else if has_wrong_digits(column) {
        Some(CompileFault::WrongKind(column.span))
    } else {
        None
    }
}

/// The first fault of the columns, from the left.
pub(crate) fn columns_fault(columns: &[QueryColumn]) -> Option<CompileFault>
    ensures { result ≡ checks.columns_fault [] columns.now }
{
    for (at, column) in columns.iter().enumerate() {
        if let Some(fault) = column_fault(&columns[..at], column) {
            return Some(fault);
        }
    }
    None
}

/// What is wrong with the column of the time: there is none of its name, or it is not of whole numbers.
pub(crate) fn time_fault(columns: &[QueryColumn], time: &Option<Ident>) -> Option<CompileFault>
    ensures { result ≡ checks.time_fault columns.now time.now }
{
    let name = time.as_ref()?;
    match column_place(columns, &name.text) {
        None => Some(CompileFault::Unknown(name.span)),
        Some(place) if columns[place].kind == Word::Int => None,
        Some(_) => Some(CompileFault::WrongKind(name.span)),
    }
}

// The kind of a column of the plan.
fn plan_kind(kind: Word, digits: u64) -> Kind
    requires { kind ≡ w.Dec → digits ≤ 6 }
    ensures { result ≡ stands.kind_of kind digits }
{
    match kind {
        Word::Int => Kind::Int,
        Word::Dec => Kind::Dec(digits as u8),
        _ => Kind::Text,
    }
}

// A column of the plan.
fn plan_column(alloc: Global, column: &QueryColumn) -> Result<Column, AllocError>
    requires { column.now.kind ≡ w.Dec → column.now.digits ≤ 6 }
    ensures { IfOk result (λ planned. planned ≡ stands.plan_column column.now) }
{
    let name = String::from_str(alloc, column.name.text.as_str())?;
    Ok(Column {
        name: Text::of(name),
        kind: plan_kind(column.kind, column.digits),
    })
}

// The columns of the plan.
fn plan_columns(alloc: Global, columns: &[QueryColumn]) -> Result<Vec<Column>, AllocError>
    requires { All (λ column. column.kind ≡ w.Dec → column.digits ≤ 6) columns.now }
    ensures { IfOk result (λ planned. planned.items ≡ map stands.plan_column columns.now) }
{
    let mut planned = Vec::with_capacity(alloc, columns.len())?;
    for column in columns {
        planned.push(plan_column(alloc, column)?)?;
    }
    Ok(planned)
}

// The place of the time's column.
fn time_place(columns: &[QueryColumn], time: &Option<Ident>) -> Option<u16>
    requires { length columns.now ≤ 64 }
    ensures { result ≡ stands.time_place columns.now time.now }
{
    let name = time.as_ref()?;
    let place = column_place(columns, &name.text)?;
    Some(place as u16)
}

/// The columns of the plan, and which of them is the time's.
pub(crate) fn schema(alloc: Global, query: &Query) -> Result<Schema, AllocError>
    requires { IsNamed query.now }
    ensures columns { IfOk result
        (λ schema. schema.columns ≡ map stands.plan_column query.now.columns) }
    ensures time { IfOk result
        (λ schema. schema.time ≡ stands.time_place query.now.columns query.now.time) }
{
    let columns = query.columns.as_slice();
    let planned = plan_columns(alloc, columns)?;
    Ok(Schema {
        columns: Listed::of(planned),
        time: time_place(columns, &query.time),
    })
}
