// Which partial matches there are, and which events a match uses up.
ghost use Rattle.std.specs.Prelude.{OnOk, string_bytes};
ghost use Rattle.sp_query.specs.Grammar as g;
ghost use Rattle.sp_query.specs.Same.{SameConsume};
ghost use Rattle.sp_syntax.specs.Printing.{Adds, Prints, Equal};

use crate::names::listed_names;
use crate::tokens::token;
use sp_query::{QueryConsume, Word};
use std::alloc::AllocError;

// SELECT ( FIRST | LAST | EACH )
pub(crate) fn policy(out: &mut String, select: Word) -> Result<(), AllocError>
    ensures { OnOk result
        (Adds (string_bytes out.old) (string_bytes out.new) (Prints g.Policy Equal select)) }
{
    token(out, "SELECT")?;
    token(out, select.spelling())
}

// CONSUME ( ALL | NONE | "(" name { "," name } ")" )
pub(crate) fn consume(out: &mut String, consume: &QueryConsume) -> Result<(), AllocError>
    ensures { OnOk result
        (Adds (string_bytes out.old) (string_bytes out.new)
        (Prints g.Consume SameConsume consume.now)) }
{
    token(out, "CONSUME")?;
    match consume {
        QueryConsume::All => token(out, "ALL"),
        QueryConsume::None => token(out, "NONE"),
        QueryConsume::Names(idents) => {
            token(out, "(")?;
            listed_names(out, idents.as_slice())?;
            token(out, ")")
        }
    }
}
