// From the text of a second query to its plan.
ghost use Rattle.std.specs.Prelude.{◌≡◌, ◌≤◌, length, IfOk, IfErr};
ghost use Rattle.sp_base.specs.Limits.{query_limit};
ghost use Rattle.sp_load.specs.Seconds.{IsSecondFor, RefusesSecond};

use crate::query::{plan_of, query_of};
use crate::refusal::Refusal;
use sp_compile::CompileFault;
use sp_plan::Plan;
use sp_query::Ident;
use std::alloc::Global;

// Why a query with this name in its clause TIME is no second one.
fn timed(name: &Ident) -> Refusal
    ensures { result ≡ Refusal.Query 23 name.now.span.from }
{
    let fault = CompileFault::WrongKind(name.span);
    Refusal::Query {
        code: fault.code(),
        place: fault.place(),
    }
}

/// The plan of a second query, whose events have no time, from its text, or why there is none: `Query` for a fault of
/// the text, or `Memory`. A clause TIME is the fault of a column of the wrong kind, at its name, where there is no other.
pub fn second_plan(alloc: Global, text: &str) -> Result<Plan, Refusal>
    requires { length text.now ≤ query_limit }
    ensures plan { IfOk result (IsSecondFor text.now) }
    ensures refused { IfErr result (RefusesSecond text.now) }
{
    let query = match query_of(alloc, text) {
        Ok(query) => query,
        Err(refusal) => return Err(refusal),
    };
    let plan = match plan_of(alloc, &query) {
        Ok(plan) => plan,
        Err(refusal) => return Err(refusal),
    };
    match &query.time {
        None => Ok(plan),
        Some(name) => Err(timed(name)),
    }
}
