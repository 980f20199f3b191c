// Names and lists of them.
ghost use Rattle.std.specs.Prelude.{OnOk, string_bytes};
ghost use Rattle.sp_query.specs.Grammar as g;
ghost use Rattle.sp_query.specs.declared.mark.Mark.TheVariants as m;
ghost use Rattle.sp_query.specs.Same.{Pairwise, SameIdent};
ghost use Rattle.sp_syntax.specs.Printing.{Adds, Prints, Each};

use crate::tokens::token;
use sp_query::Ident;
use std::alloc::AllocError;

// A name.
pub(crate) fn name(out: &mut String, ident: &Ident) -> Result<(), AllocError>
    ensures { OnOk result
        (Adds (string_bytes out.old) (string_bytes out.new) (Prints g.Name SameIdent ident.now)) }
{
    token(out, ident.text.as_str())
}

// Names, one behind another.
pub(crate) fn names(out: &mut String, idents: &[Ident]) -> Result<(), AllocError>
    ensures { OnOk result
        (Adds (string_bytes out.old) (string_bytes out.new)
        (Prints (Each g.Name) (Pairwise SameIdent) idents.now)) }
{
    for ident in idents {
        name(out, ident)?;
    }
    Ok(())
}

// Names, each behind a comma.
fn more_names(out: &mut String, idents: &[Ident]) -> Result<(), AllocError>
    ensures { OnOk result
        (Adds (string_bytes out.old) (string_bytes out.new)
        (Prints (Each (g.After m.Comma g.Name)) (Pairwise SameIdent) idents.now)) }
{
    for ident in idents {
        token(out, ",")?;
        name(out, ident)?;
    }
    Ok(())
}

// name { "," name }
pub(crate) fn listed_names(out: &mut String, idents: &[Ident]) -> Result<(), AllocError>
    ensures { OnOk result
        (Adds (string_bytes out.old) (string_bytes out.new)
        (Prints (g.ListOf g.Name) (Pairwise SameIdent) idents.now)) }
{
    match idents {
        [first, rest @ ..] => {
            name(out, first)?;
            more_names(out, rest)
        }
        [] => Ok(()),
    }
}
