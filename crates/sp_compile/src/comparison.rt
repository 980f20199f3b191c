// Comparisons of two sides, raised to one scale where they are numbers.
ghost use Rattle.std.specs.Prelude.{◌≡◌, ◌≤◌};
ghost use Rattle.sp_plan.specs.Bounds.{bound, StaysWithin};
ghost use Rattle.sp_compile.specs.Sorts.{sides_fault};
ghost use Rattle.sp_compile.specs.Meaning.{compared};
ghost use Rattle.sp_compile.specs.Parts.{IsSound, comes_to, BothSorted, MadePredAnswer, SideAnswer};

use crate::arithmetic::{raise, raised_bound};
use crate::{CompileFault, Sort};
use sp_plan::{Compare, Expr, Pred};
use sp_query::Span;
use std::alloc::Global;

// Where a comparison and its sides stand.
#[derive(Clone, Copy, Drop)]
pub(crate) struct Spans {
    pub(crate) whole: Span,
    pub(crate) left: Span,
    pub(crate) right: Span,
}

/// A number with more decimals, as one side of a comparison, or `TooWide` where it may be too great.
pub fn side(alloc: Global, span: Span, expr: Expr, most: u128, by: u8) -> Result<Expr, CompileFault>
    requires by { by ≤ 36 }
    requires bounded { bound expr ≡ most }
    requires within { StaysWithin expr }
    ensures { SideAnswer span expr by result }
{
    match raised_bound(most, by) {
        Some(_) => Ok(raise(alloc, expr, by)?),
        None => Err(CompileFault::TooWide(span)),
    }
}

// A comparison of two numbers or of two texts.
pub(crate) fn comparison(
    alloc: Global,
    by: Compare,
    spans: Spans,
    left: (Expr, Sort),
    right: (Expr, Sort),
) -> Result<Pred, CompileFault>
    requires left { IsSound left }
    requires right { IsSound right }
    ensures { MadePredAnswer (sides_fault by spans.whole spans.left spans.right left.1 right.1)
        (λ event bound. compared by (comes_to left event bound) (comes_to right event bound))
        (BothSorted left right) result }
{
    match (left.1, right.1) {
        (
            Sort::Number { scale, bound },
            Sort::Number {
                scale: other,
                bound: more,
            },
        ) => {
            let to = scale.max(other);
            let left = side(alloc, spans.left, left.0, bound, to - scale)?;
            let right = side(alloc, spans.right, right.0, more, to - other)?;
            Ok(Pred::Test { by, left, right })
        }
        (Sort::Text, Sort::Text) if matches!(by, Compare::Equal | Compare::Unequal) => {
            Ok(Pred::Test {
                by,
                left: left.0,
                right: right.0,
            })
        }
        _ => Err(CompileFault::WrongKind(spans.whole)),
    }
}
