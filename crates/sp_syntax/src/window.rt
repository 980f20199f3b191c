// How long a window is, and where windows begin.
ghost use Rattle.std.specs.Prelude.{ℕ, OnOk, string_bytes};
ghost use Rattle.sp_query.specs.Grammar as g;
ghost use Rattle.sp_query.specs.Same.{SameOpening, SameLength};
ghost use Rattle.sp_syntax.specs.Printing.{Adds, Prints, Equal};

use crate::predicate::predicate;
use crate::tokens::{token, whole};
use sp_query::{QueryOpening, Span, Word};
use std::alloc::AllocError;

// whole ( EVENTS | TIME )
fn amount(out: &mut String, number: u64, unit: Word) -> Result<(), AllocError>
    ensures { OnOk result
        (Adds (string_bytes out.old) (string_bytes out.new)
        (Prints g.Amount Equal (number, unit))) }
{
    whole(out, number)?;
    token(out, unit.spelling())
}

// WITHIN whole ( EVENTS | TIME )
pub(crate) fn within(out: &mut String, length: &(u64, Word, Span)) -> Result<(), AllocError>
    ensures { OnOk result
        (Adds (string_bytes out.old) (string_bytes out.new)
        (Prints g.Within SameLength length.now)) }
{
    token(out, "WITHIN")?;
    amount(out, length.0, length.1)
}

// FROM ( EVERY whole ( EVENTS | TIME ) | WHEN pred )
pub(crate) fn opening(out: &mut String, opening: &QueryOpening) -> Result<(), AllocError>
    ensures { OnOk result
        (Adds (string_bytes out.old) (string_bytes out.new)
        (λ x. (room : ℕ) → Prints (g.Opening room) SameOpening opening.now x)) }
{
    token(out, "FROM")?;
    match opening {
        QueryOpening::Every(number, unit, _) => {
            token(out, "EVERY")?;
            amount(out, *number, *unit)
        }
        QueryOpening::When(tree) => {
            token(out, "WHEN")?;
            predicate(out, tree, 0)
        }
    }
}
