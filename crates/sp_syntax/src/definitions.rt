// What the events of each name must fulfil.
ghost use Rattle.std.specs.Prelude.{◌≡◌, ℕ, List, Option, OnOk, string_bytes};
ghost use Rattle.sp_query.specs.declared.tree.Tree.{Tree};
ghost use Rattle.sp_query.specs.Phrase as f;
ghost use Rattle.sp_query.specs.Grammar as g;
ghost use Rattle.sp_query.specs.declared.mark.Mark.TheVariants as m;
ghost use Rattle.sp_query.specs.declared.query.Ident.{Ident};
ghost use Rattle.sp_query.specs.Same.{Pairwise, SameDefinition};
ghost use Rattle.sp_syntax.specs.Printing.{Adds, Prints, Each, SameItems};

use crate::names::name;
use crate::predicate::predicate;
use crate::tokens::token;
use sp_query::{Ident, Tree};
use std::alloc::AllocError;

// name AS pred
fn definition(out: &mut String, definition: &(Ident, Tree)) -> Result<(), AllocError>
    ensures { OnOk result
        (Adds (string_bytes out.old) (string_bytes out.new)
        (λ x. (room : ℕ) → Prints (g.Definition room) SameDefinition definition.now x)) }
{
    name(out, &definition.0)?;
    token(out, "AS")?;
    predicate(out, &definition.1, 0)
}

// Definitions, each behind a comma.
fn more_definitions(out: &mut String, definitions: &[(Ident, Tree)]) -> Result<(), AllocError>
    ensures { OnOk result
        (Adds (string_bytes out.old) (string_bytes out.new)
        (λ x. (room : ℕ)
        → Prints (Each (g.After m.Comma (g.Definition room)))
        (Pairwise SameDefinition) definitions.now x)) }
{
    for one in definitions {
        token(out, ",")?;
        definition(out, one)?;
    }
    Ok(())
}

// [ DEFINE define { "," define } ]
pub(crate) fn definitions(out: &mut String, definitions: &[(Ident, Tree)]) -> Result<(), AllocError>
    ensures { OnOk result
        (Adds (string_bytes out.old) (string_bytes out.new)
        (λ x. (room : ℕ) (some : Option (List (Ident × Tree))) → g.items some ≡ definitions.now
        → Prints (f.Optional (g.Definitions room)) SameItems some x)) }
{
    match definitions {
        [first, rest @ ..] => {
            token(out, "DEFINE")?;
            definition(out, first)?;
            more_definitions(out, rest)
        }
        [] => Ok(()),
    }
}
