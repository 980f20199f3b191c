// What items may name, from the plan of the first query.
ghost use Rattle.std.specs.Prelude.{◌≡◌, ◌≤◌, ◌<◌, map, length, IfOk};
ghost use Rattle.std.specs.List.{All, list_any};
ghost use Rattle.sp_plan.specs.Compiled.{IsKind};
ghost use Rattle.sp_returns.specs.Scopes as scopes;

use sp_compile::elements::PlacedName;
use sp_plan::{Column, Element, Kind, Memory, Name, Text};
use sp_query::{Ident, QueryColumn, Span, Word};
use std::alloc::Global;

// A plan keeps no places.
const NOWHERE: Span = Span { from: 0, to: 0 };

// A name without a place.
fn ident(alloc: Global, text: &Text) -> Result<Ident, Memory>
    ensures { IfOk result (λ made. made ≡ scopes.ident_of text.now) }
{
    Ok(Ident {
        text: text.copy(alloc)?,
        span: NOWHERE,
    })
}

// A kind, as a query names it.
fn word_of(kind: Kind) -> Word
    ensures { result ≡ scopes.word_of kind }
{
    match kind {
        Kind::Int => Word::Int,
        Kind::Dec(_) => Word::Dec,
        Kind::Text => Word::Text,
    }
}

// How many decimals a query names behind DEC.
fn digits_of(kind: Kind) -> u64
    ensures { result ≡ scopes.digits_of kind }
{
    match kind {
        Kind::Dec(digits) => u64::from(digits),
        _ => 0,
    }
}

// A column, as a query names it.
fn query_column(alloc: Global, column: &Column) -> Result<QueryColumn, Memory>
    ensures { IfOk result (λ made. made ≡ scopes.query_column column.now) }
{
    Ok(QueryColumn {
        name: ident(alloc, &column.name)?,
        kind: word_of(column.kind),
        digits: digits_of(column.kind),
        span: NOWHERE,
    })
}

/// The columns of a plan, as a query names them.
pub(crate) fn query_columns(alloc: Global, columns: &[Column]) -> Result<Vec<QueryColumn>, Memory>
    ensures { IfOk result (λ made. made.items ≡ map scopes.query_column columns.now) }
{
    let mut made = Vec::with_capacity(alloc, columns.len())?;
    for column in columns {
        made.push(query_column(alloc, column)?)?;
    }
    Ok(made)
}

/// The names of a plan.
pub(crate) fn idents(alloc: Global, names: &[Name]) -> Result<Vec<Ident>, Memory>
    ensures { IfOk result (λ made. made.items ≡ scopes.idents_of names.now) }
{
    let mut made = Vec::with_capacity(alloc, names.len())?;
    for name in names {
        made.push(ident(alloc, &name.text)?)?;
    }
    Ok(made)
}

// Whether the element is this name, negated.
fn is_never(element: &Element, number: usize) -> bool
    ensures { result ≡ scopes.is_never number element.now }
{
    match element {
        Element::Never(name) => *name as usize == number,
        _ => false,
    }
}

// Whether this name is negated.
fn is_negated(elements: &[Element], number: usize) -> bool
    ensures { result ≡ list_any (scopes.is_never number) elements.now }
{
    elements.iter().any(|element| is_never(element, number))
}

/// The names of a plan's pattern, all of one element in front of the items.
pub(crate) fn placed_names<'a>(
    alloc: Global,
    elements: &[Element],
    idents: &'a [Ident],
) -> Result<Vec<PlacedName<'a>>, Memory>
    ensures { IfOk result (λ made. made.items ≡ scopes.named_from elements.now 0 idents.now) }
{
    let mut made = Vec::with_capacity(alloc, idents.len())?;
    for (number, name) in idents.iter().enumerate() {
        made.push(PlacedName {
            name,
            element: 0,
            negated: is_negated(elements, number),
        })?;
    }
    Ok(made)
}
