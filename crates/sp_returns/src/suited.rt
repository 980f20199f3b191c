// The expression of an item, for the column that it is for.
ghost use Rattle.std.specs.Prelude.{◌≡◌, ◌≤◌, false};
ghost use Rattle.sp_plan.specs.Bounds.{bound, StaysWithin};
ghost use Rattle.sp_plan.specs.Compiled.{IsKind};
ghost use Rattle.sp_compile.specs.Answers.{AreNamed};
ghost use Rattle.sp_compile.specs.Parts.{IsSound};
ghost use Rattle.sp_returns.specs.Answers.{FittedAnswer, SuitedAnswer, ScaledAnswer};

use sp_compile::comparison::side;
use sp_compile::expression::expression;
use sp_compile::scope::Scope;
use sp_compile::{CompileFault, Sort};
use sp_plan::{Expr, Kind, Text};
use sp_query::{Span, Tree};
use std::alloc::Global;

// The number with as many decimals as a column has, or why it isn't for the column.
fn scaled(
    alloc: Global,
    span: Span,
    decimals: u8,
    expr: Expr,
    scale: u8,
    most: u128,
) -> Result<Expr, CompileFault>
    requires decimals { decimals ≤ 6 }
    requires bounded { bound expr ≡ most }
    requires within { StaysWithin expr }
    ensures { ScaledAnswer span decimals expr scale result }
{
    if scale > decimals {
        return Err(CompileFault::WrongKind(span));
    }
    side(alloc, span, expr, most, decimals - scale)
}

// The expression with as many decimals as a column of this kind has, or why it isn't for the column.
fn suited(alloc: Global, span: Span, kind: Kind, made: (Expr, Sort)) -> Result<Expr, CompileFault>
    requires kind { IsKind kind }
    requires sound { IsSound made }
    ensures { SuitedAnswer span kind made result }
{
    match (kind, made.1) {
        (Kind::Text, Sort::Text) => Ok(made.0),
        (Kind::Int, Sort::Number { scale, bound }) => scaled(alloc, span, 0, made.0, scale, bound),
        (Kind::Dec(digits), Sort::Number { scale, bound }) => {
            scaled(alloc, span, digits, made.0, scale, bound)
        }
        _ => Err(CompileFault::WrongKind(span)),
    }
}

/// The expression of an item's tree for a column of this kind, or its first fault.
pub(crate) fn fitted(
    alloc: Global,
    scope: &Scope,
    texts: &[Text],
    kind: Kind,
    tree: &Tree,
) -> Result<Expr, CompileFault>
    requires named { AreNamed scope.now.columns scope.now.names }
    requires none { scope.now.at_hand ≡ false }
    requires kind { IsKind kind }
    ensures { FittedAnswer scope.now texts.now kind tree.now result }
{
    let made = expression(alloc, scope, texts, tree)?;
    suited(alloc, tree.span, kind, made)
}
