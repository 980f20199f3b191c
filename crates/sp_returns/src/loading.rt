// From the text of items to their expressions.
ghost use Rattle.std.specs.Prelude.{◌≡◌, ◌≢◌, ◌≤◌, length, IfOk, IfErr};
ghost use Rattle.sp_base.specs.Limits.{query_limit};
ghost use Rattle.sp_plan.specs.Compiled.{IsCompiled};
ghost use Rattle.sp_parse.specs.declared.fault.ParseFault.{ParseFault};
ghost use Rattle.sp_parse.specs.Codes as parse_codes;
ghost use Rattle.sp_compile.specs.declared.fault.CompileFault.{CompileFault};
ghost use Rattle.sp_compile.specs.Codes as compile_codes;
ghost use Rattle.sp_returns.specs.Told.{IsReturnsFor, RefusesReturned};

use crate::compiling::compile_returns;
use crate::parsing::parse_returns;
use crate::refusal::ReturnsRefusal;
use sp_compile::CompileFault;
use sp_parse::ParseFault;
use sp_plan::{Expr, Plan};
use std::alloc::Global;

// Why a text is no list of items.
fn no_items(fault: &ParseFault) -> ReturnsRefusal
    ensures memory { fault.now ≡ ParseFault.Memory → result ≡ ReturnsRefusal.Memory }
    ensures other { fault.now ≢ ParseFault.Memory
        → result
        ≡ ReturnsRefusal.Fault (parse_codes.code_of fault.now) (parse_codes.place_of fault.now) }
{
    match fault {
        ParseFault::Memory => ReturnsRefusal::Memory,
        fault => ReturnsRefusal::Fault {
            code: fault.code(),
            place: fault.place(),
        },
    }
}

// Why items have no expressions.
fn no_returns(fault: &CompileFault) -> ReturnsRefusal
    ensures memory { fault.now ≡ CompileFault.Memory → result ≡ ReturnsRefusal.Memory }
    ensures other { fault.now ≢ CompileFault.Memory
        → result
        ≡ ReturnsRefusal.Fault (compile_codes.code_of fault.now)
        (compile_codes.place_of fault.now) }
{
    match fault {
        CompileFault::Memory => ReturnsRefusal::Memory,
        fault => ReturnsRefusal::Fault {
            code: fault.code(),
            place: fault.place(),
        },
    }
}

/// The expressions by which matches of one query become events of a second, from their text, or why there
/// are none: `Fault` for a fault of the text, or `Memory`.
pub fn returns_of_text(
    alloc: Global,
    text: &str,
    from: &Plan,
    into: &Plan,
) -> Result<Vec<Expr>, ReturnsRefusal>
    requires text { length text.now ≤ query_limit }
    requires from { IsCompiled from.now }
    requires into { IsCompiled into.now }
    ensures returns { IfOk result
        (λ returns. IsReturnsFor text.now from.now into.now returns.items) }
    ensures refused { IfErr result
        (λ refusal. RefusesReturned text.now from.now into.now refusal) }
{
    let items = match parse_returns(alloc, text) {
        Ok(items) => items,
        Err(fault) => return Err(no_items(&fault)),
    };
    match compile_returns(alloc, &items, from, &into.schema) {
        Ok(returns) => Ok(returns),
        Err(fault) => Err(no_returns(&fault)),
    }
}
