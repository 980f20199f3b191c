// The elements of the pattern.
ghost use Rattle.std.specs.Prelude.{OnOk, string_bytes};
ghost use Rattle.sp_query.specs.Grammar as g;
ghost use Rattle.sp_query.specs.Same.{Pairwise, SameElement};
ghost use Rattle.sp_syntax.specs.Printing.{Adds, Prints, Each};

use crate::names::{name, names};
use crate::tokens::token;
use sp_query::QueryElement;
use std::alloc::AllocError;

// name [ "+" ] | SET "(" name name { name } ")" | "!" name
fn element(out: &mut String, element: &QueryElement) -> Result<(), AllocError>
    ensures { OnOk result
        (Adds (string_bytes out.old) (string_bytes out.new)
        (Prints g.Element SameElement element.now)) }
{
    match element {
        QueryElement::One(ident) => name(out, ident),
        QueryElement::Plus(ident, _) => {
            name(out, ident)?;
            token(out, "+")
        }
        QueryElement::Set(idents) => {
            token(out, "SET")?;
            token(out, "(")?;
            names(out, idents.as_slice())?;
            token(out, ")")
        }
        QueryElement::Never(ident, _) => {
            token(out, "!")?;
            name(out, ident)
        }
    }
}

// Elements, one behind another.
fn all_elements(out: &mut String, elements: &[QueryElement]) -> Result<(), AllocError>
    ensures { OnOk result
        (Adds (string_bytes out.old) (string_bytes out.new)
        (Prints (Each g.Element) (Pairwise SameElement) elements.now)) }
{
    for one in elements {
        element(out, one)?;
    }
    Ok(())
}

// PATTERN "(" element { element } ")"
pub(crate) fn elements(out: &mut String, elements: &[QueryElement]) -> Result<(), AllocError>
    ensures { OnOk result
        (Adds (string_bytes out.old) (string_bytes out.new)
        (Prints g.Elements (Pairwise SameElement) elements.now)) }
{
    token(out, "PATTERN")?;
    token(out, "(")?;
    all_elements(out, elements)?;
    token(out, ")")
}
