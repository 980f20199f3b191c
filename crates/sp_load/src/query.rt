// From the text of a query to its plan.
ghost use Rattle.std.specs.Prelude.{◌≡◌, ◌≢◌, ◌≤◌, length, IfOk, IfErr};
ghost use Rattle.sp_base.specs.Limits.{query_limit};
ghost use Rattle.sp_query.specs.Queries.{IsQuery};
ghost use Rattle.sp_parse.specs.declared.fault.ParseFault.{ParseFault};
ghost use Rattle.sp_parse.specs.Codes as parse_codes;
ghost use Rattle.sp_compile.specs.declared.fault.CompileFault.{CompileFault};
ghost use Rattle.sp_compile.specs.Told.{IsPlanOf};
ghost use Rattle.sp_compile.specs.Codes as compile_codes;
ghost use Rattle.sp_load.specs.Queries.{IsPlanFor, RefusesText, RefusesQuery};

use crate::refusal::Refusal;
use sp_compile::{CompileFault, compile};
use sp_parse::{ParseFault, parse};
use sp_plan::Plan;
use sp_query::Query;
use std::alloc::Global;

// Why a text is no query.
fn no_query(fault: &ParseFault) -> Refusal
    ensures memory { fault.now ≡ ParseFault.Memory → result ≡ Refusal.Memory }
    ensures other { fault.now ≢ ParseFault.Memory
        → result ≡ Refusal.Query (parse_codes.code_of fault.now) (parse_codes.place_of fault.now) }
{
    match fault {
        ParseFault::Memory => Refusal::Memory,
        fault => Refusal::Query {
            code: fault.code(),
            place: fault.place(),
        },
    }
}

// Why a query has no plan.
fn no_plan(fault: &CompileFault) -> Refusal
    ensures memory { fault.now ≡ CompileFault.Memory → result ≡ Refusal.Memory }
    ensures other { fault.now ≢ CompileFault.Memory
        → result
        ≡ Refusal.Query (compile_codes.code_of fault.now) (compile_codes.place_of fault.now) }
{
    match fault {
        CompileFault::Memory => Refusal::Memory,
        fault => Refusal::Query {
            code: fault.code(),
            place: fault.place(),
        },
    }
}

/// The query that the text is, or why it is none.
pub(crate) fn query_of(alloc: Global, text: &str) -> Result<Query, Refusal>
    requires { length text.now ≤ query_limit }
    ensures query { IfOk result (IsQuery text.now) }
    ensures refused { IfErr result (RefusesText text.now) }
{
    match parse(alloc, text) {
        Ok(query) => Ok(query),
        Err(fault) => Err(no_query(&fault)),
    }
}

/// The plan of a query, or why there is none.
pub(crate) fn plan_of(alloc: Global, query: &Query) -> Result<Plan, Refusal>
    ensures plan { IfOk result (λ q. IsPlanOf q query.now) }
    ensures refused { IfErr result (RefusesQuery query.now) }
{
    match compile(alloc, query) {
        Ok(plan) => Ok(plan),
        Err(fault) => Err(no_plan(&fault)),
    }
}

/// The plan of a query text, or why there is none: a fault of the text with its place, or want
/// of memory.
pub(crate) fn read_query(alloc: Global, text: &str) -> Result<Plan, Refusal>
    requires { length text.now ≤ query_limit }
    ensures plan { IfOk result (IsPlanFor text.now) }
    ensures refused { IfErr result (RefusesText text.now) }
{
    let query = query_of(alloc, text)?;
    plan_of(alloc, &query)
}
