// The columns of the events, and which of them is the time.
ghost use Rattle.std.specs.Prelude.{OnOk, string_bytes};
ghost use Rattle.sp_query.specs.Phrase as f;
ghost use Rattle.sp_query.specs.Grammar as g;
ghost use Rattle.sp_query.specs.declared.mark.Mark.TheVariants as m;
ghost use Rattle.sp_query.specs.Same.{Pairwise, SameTime, SameColumn};
ghost use Rattle.sp_syntax.specs.Printing.{Adds, Prints, Each, Equal};

use crate::names::name;
use crate::tokens::{token, whole};
use sp_query::{Ident, QueryColumn, Word};
use std::alloc::AllocError;

// INT | TEXT | DEC whole
fn kind(out: &mut String, kind: Word, digits: u64) -> Result<(), AllocError>
    ensures { OnOk result
        (Adds (string_bytes out.old) (string_bytes out.new)
        (Prints g.KindOf Equal (kind, digits))) }
{
    token(out, kind.spelling())?;
    if kind == Word::Dec {
        return whole(out, digits);
    }
    Ok(())
}

// name ( INT | DEC whole | TEXT )
fn column(out: &mut String, column: &QueryColumn) -> Result<(), AllocError>
    ensures { OnOk result
        (Adds (string_bytes out.old) (string_bytes out.new)
        (Prints g.Column SameColumn column.now)) }
{
    name(out, &column.name)?;
    kind(out, column.kind, column.digits)
}

// Columns, each behind a comma.
fn more_columns(out: &mut String, columns: &[QueryColumn]) -> Result<(), AllocError>
    ensures { OnOk result
        (Adds (string_bytes out.old) (string_bytes out.new)
        (Prints (Each (g.After m.Comma g.Column)) (Pairwise SameColumn) columns.now)) }
{
    for one in columns {
        token(out, ",")?;
        column(out, one)?;
    }
    Ok(())
}

// column { "," column }
fn listed_columns(out: &mut String, columns: &[QueryColumn]) -> Result<(), AllocError>
    ensures { OnOk result
        (Adds (string_bytes out.old) (string_bytes out.new)
        (Prints (g.ListOf g.Column) (Pairwise SameColumn) columns.now)) }
{
    match columns {
        [first, rest @ ..] => {
            column(out, first)?;
            more_columns(out, rest)
        }
        [] => Ok(()),
    }
}

// EVENT "(" column { "," column } ")"
pub(crate) fn columns(out: &mut String, columns: &[QueryColumn]) -> Result<(), AllocError>
    ensures { OnOk result
        (Adds (string_bytes out.old) (string_bytes out.new)
        (Prints g.Columns (Pairwise SameColumn) columns.now)) }
{
    token(out, "EVENT")?;
    token(out, "(")?;
    listed_columns(out, columns)?;
    token(out, ")")
}

// TIME name
pub(crate) fn time(out: &mut String, time: &Option<Ident>) -> Result<(), AllocError>
    ensures { OnOk result
        (Adds (string_bytes out.old) (string_bytes out.new)
        (Prints (f.Optional g.Timed) SameTime time.now)) }
{
    match time {
        Some(ident) => {
            token(out, "TIME")?;
            name(out, ident)
        }
        None => Ok(()),
    }
}
