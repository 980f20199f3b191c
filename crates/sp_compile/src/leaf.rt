// Numbers, texts and columns of expressions, each with what it is.
ghost use Rattle.std.specs.Prelude.{◌≡◌, ◌≤◌, false};
ghost use Rattle.sp_lex.specs.declared.token.Word.TheVariants as w;
ghost use Rattle.sp_compile.specs.Answers.{AreNamed};
ghost use Rattle.sp_compile.specs.Sorts as sorts;
ghost use Rattle.sp_compile.specs.Parts.{Anyway, MadeAnswer, NumberAnswer, TextAnswer, Reads, own_datum, earlier_datum};

use crate::lookup::{column_place, name_place, text_number};
use crate::scope::Scope;
use crate::texts::is_known;
use crate::{CompileFault, Sort};
use sp_base::limits::NUMBER_LIMIT;
use sp_plan::{Expr, Text};
use sp_query::{QueryColumn, Span, Word};

// The most decimals that a query writes.
const MOST_DIGITS: u8 = 6;

// What a column is.
fn column_sort(column: &QueryColumn) -> Sort
    requires { column.now.kind ≡ w.Dec → column.now.digits ≤ 6 }
    ensures { result ≡ sorts.column_sort column.now }
{
    let bound = u128::from(NUMBER_LIMIT);
    match column.kind {
        Word::Int => Sort::Number { scale: 0, bound },
        Word::Dec => Sort::Number {
            scale: column.digits as u8,
            bound,
        },
        _ => Sort::Text,
    }
}

// A number that stands in the query.
pub(crate) fn number(units: u64, scale: u8) -> Result<(Expr, Sort), CompileFault>
    ensures { NumberAnswer units scale result }
{
    // No text has such a number.
    if units > NUMBER_LIMIT || scale > MOST_DIGITS {
        return Err(CompileFault::Memory);
    }
    let sort = Sort::Number {
        scale,
        bound: u128::from(units),
    };
    Ok((Expr::Literal(units as i64), sort))
}

// A text that stands in the query.
pub(crate) fn literal(
    scope: &Scope,
    texts: &[Text],
    span: Span,
    text: &Text,
) -> Result<(Expr, Sort), CompileFault>
    ensures { TextAnswer scope.now texts.now span text.now result }
{
    if !scope.at_hand && !is_known(scope.known, text) {
        return Err(CompileFault::Unknown(span));
    }
    let number = text_number(texts, text);
    match u32::try_from(number) {
        Ok(symbol) if number < texts.len() => Ok((Expr::Word(symbol), Sort::Text)),
        // Each text of a query is among these, and no query has so many.
        _ => Err(CompileFault::Memory),
    }
}

// A column of the event at hand, where one is.
pub(crate) fn own(scope: &Scope, span: Span, text: &Text) -> Result<(Expr, Sort), CompileFault>
    requires { AreNamed scope.now.columns scope.now.names }
    ensures { MadeAnswer (sorts.own_sort scope.now span text.now) (own_datum scope.now text.now)
        (Reads scope.now) (scope.now.at_hand ≡ false) result }
{
    if !scope.at_hand {
        return Err(CompileFault::Unknown(span));
    }
    let columns = scope.columns;
    match column_place(columns, text) {
        Some(place) => Ok((Expr::Column(place as u16), column_sort(&columns[place]))),
        None => Err(CompileFault::Unknown(span)),
    }
}

// A column of the last event that is bound to an earlier name; to a negated one none is.
pub(crate) fn earlier(
    scope: &Scope,
    span: Span,
    name: &Text,
    text: &Text,
) -> Result<(Expr, Sort), CompileFault>
    requires { AreNamed scope.now.columns scope.now.names }
    ensures { MadeAnswer (sorts.earlier_sort scope.now span name.now text.now)
        (earlier_datum scope.now name.now text.now) (Reads scope.now) Anyway result }
{
    let Some(here) = scope.here else {
        return Err(CompileFault::LateReference(span));
    };
    let columns = scope.columns;
    let (Some(number), Some(place)) = (name_place(scope.names, name), column_place(columns, text))
    else {
        return Err(CompileFault::Unknown(span));
    };
    let named = &scope.names[number];
    if named.negated {
        return Err(CompileFault::NeverBound(span));
    }
    if named.element >= here {
        return Err(CompileFault::LateReference(span));
    }
    let expr = Expr::Earlier {
        name: number as u8,
        column: place as u16,
    };
    Ok((expr, column_sort(&columns[place])))
}
