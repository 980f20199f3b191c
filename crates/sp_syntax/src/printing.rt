// A query as a text that reads as the same query: its tokens, each with a blank behind it.
ghost use Rattle.std.specs.Prelude.{ℕ, List, OnOk, IfOk, string_bytes};
ghost use Rattle.sp_query.specs.Grammar as g;
ghost use Rattle.sp_query.specs.declared.query.Query.{Query};
ghost use Rattle.sp_query.specs.Same.{Same};
ghost use Rattle.sp_query.specs.Queries.{IsQuery};
ghost use Rattle.sp_syntax.specs.Printing.{Adds, Prints};

use crate::columns::{columns, time};
use crate::consume::{consume, policy};
use crate::definitions::definitions;
use crate::pattern::elements;
use crate::window::{opening, within};
use sp_query::Query;
use std::alloc::{AllocError, Global};

// The clauses of a query, one after another.
fn clauses(out: &mut String, query: &Query) -> Result<(), AllocError>
    ensures { OnOk result
        (Adds (string_bytes out.old) (string_bytes out.new)
        (λ x. (room : ℕ) → Prints (g.Derives room) Same query.now x)) }
{
    columns(out, query.columns.as_slice())?;
    time(out, &query.time)?;
    elements(out, query.elements.as_slice())?;
    definitions(out, query.defines.as_slice())?;
    within(out, &query.length)?;
    opening(out, &query.opening)?;
    policy(out, query.select)?;
    consume(out, &query.consume)
}

/// The text of a query that came from a text: one that reads as the same query, but for the places of
/// its parts.
pub fn print(alloc: Global, query: &Query) -> Result<String, AllocError>
    requires { (text : List ℕ) × IsQuery text query.now }
    ensures { IfOk result
        (λ out. (other : Query) × IsQuery (string_bytes out) other × Same query.now other) }
{
    let mut out = String::new(alloc);
    clauses(&mut out, query)?;
    Ok(out)
}
