// Operators of expressions. Numbers are raised to one scale before they are added or compared.
ghost use Rattle.std.specs.Prelude.{◌≡◌, ◌≤◌, ◌*◌, ◌^◌, true, Ok, Err, IfOk, MatchResult};
ghost use Rattle.sp_plan.specs.Bounds.{bound, greatest, StaysWithin};
ghost use Rattle.sp_query.specs.declared.tree.Node.TheVariants as n;
ghost use Rattle.sp_compile.specs.Sorts.{is_arithmetic, operator_sort, negative_sort, product_sort, sum_sort};
ghost use Rattle.sp_compile.specs.Meaning.{combined, negative};
ghost use Rattle.sp_compile.specs.Answers.{HasSort, ReadsEarlier};
ghost use Rattle.sp_compile.specs.Parts.{within_limit, limit_of_sum, raises, IsScaled, IsSound, comes_to, BothEarlier, BothSorted, MadeAnswer, RaisedAnswer, AlignedAnswer, NumbersAnswer};

use crate::boxed::{boxed, boxed_pair};
use crate::expression::both;
use crate::{CompileFault, Sort};
use sp_plan::Expr;
use sp_query::{Node, Span};
use std::alloc::Global;

// The greatest magnitude that a value may have.
const GREATEST: u128 = 1_000_000_000_000_000_000_000_000_000_000_000_000;

// The most decimals that a value may have.
const MOST_DECIMALS: u8 = 36;

// A bound, if no value may be greater.
fn limited(most: u128) -> Option<u128>
    ensures { result ≡ within_limit most }
{
    (most <= GREATEST).then_some(most)
}

// The bound of a product, if no value may be greater.
fn product_bound(bound: u128, more: u128) -> Option<u128>
    ensures { result ≡ within_limit (bound * more) }
{
    limited(bound.checked_mul(more)?)
}

// The bound of a number that is raised to more decimals, if no value may be greater.
pub(crate) fn raised_bound(bound: u128, by: u8) -> Option<u128>
    requires { by ≤ 36 }
    ensures { result ≡ within_limit (bound * 10 ^ by) }
{
    product_bound(bound, 10u128.pow(u32::from(by)))
}

// The same number with more decimals.
pub(crate) fn raise(alloc: Global, expr: Expr, by: u8) -> Result<Expr, CompileFault>
    requires by { by ≤ 36 }
    requires within { StaysWithin expr }
    requires bounded { bound expr * 10 ^ by ≤ greatest }
    ensures { RaisedAnswer expr by result }
{
    if by == 0 {
        return Ok(expr);
    }
    Ok(Expr::Raise {
        by,
        inner: boxed(alloc, expr)?,
    })
}

// Minus a number.
pub(crate) fn minus(
    alloc: Global,
    span: Span,
    inner: (Expr, Sort),
) -> Result<(Expr, Sort), CompileFault>
    requires { IsSound inner }
    ensures { MadeAnswer (negative_sort span inner.1)
        (λ event bound. negative (comes_to inner event bound))
        (λ r. HasSort r inner.0 inner.1) (ReadsEarlier inner.0) result }
{
    let (expr, sort) = inner;
    match sort {
        Sort::Text => Err(CompileFault::WrongKind(span)),
        Sort::Number { .. } => Ok((Expr::Minus(boxed(alloc, expr)?), sort)),
    }
}

// The scale of a number, and its bound.
#[derive(Clone, Copy, Drop)]
struct Scaled {
    scale: u8,
    bound: u128,
}

// What two numbers are. A text is none.
fn numbers(span: Span, left: Sort, right: Sort) -> Result<(Scaled, Scaled), CompileFault>
    requires left { IsScaled left }
    requires right { IsScaled right }
    ensures { NumbersAnswer span left right result }
{
    match (left, right) {
        (
            Sort::Number { scale, bound },
            Sort::Number {
                scale: other,
                bound: more,
            },
        ) => Ok((
            Scaled { scale, bound },
            Scaled {
                scale: other,
                bound: more,
            },
        )),
        _ => Err(CompileFault::WrongKind(span)),
    }
}

// What the product of two numbers is.
fn sort_of_product(span: Span, left: Sort, right: Sort) -> Result<Sort, CompileFault>
    requires left { IsScaled left }
    requires right { IsScaled right }
    ensures { result ≡ product_sort span left right }
{
    let (one, two) = numbers(span, left, right)?;
    let scale = one.scale + two.scale;
    match product_bound(one.bound, two.bound) {
        Some(bound) if scale <= MOST_DECIMALS => Ok(Sort::Number { scale, bound }),
        _ => Err(CompileFault::TooWide(span)),
    }
}

// The product of two numbers.
fn product(
    alloc: Global,
    span: Span,
    left: (Expr, Sort),
    right: (Expr, Sort),
) -> Result<(Expr, Sort), CompileFault>
    requires left { IsSound left }
    requires right { IsSound right }
    ensures { MadeAnswer (product_sort span left.1 right.1)
        (λ event bound. combined n.Mul (comes_to left event bound) (comes_to right event bound))
        (BothSorted left right) (BothEarlier left right) result }
{
    let sort = sort_of_product(span, left.1, right.1)?;
    let (one, other) = boxed_pair(alloc, left.0, right.0)?;
    Ok((Expr::Mul(one, other), sort))
}

// The bound of a sum, if no value may be greater.
fn sum_bound(bound: Option<u128>, more: Option<u128>) -> Option<u128>
    ensures { result ≡ limit_of_sum bound more }
{
    limited(bound?.checked_add(more?)?)
}

// How many decimals more the sides of a sum get, and what the sum is.
#[derive(Clone, Copy, Drop)]
struct Alignment {
    left: u8,
    right: u8,
    sort: Sort,
}

// How two numbers come to the greater of their scales.
fn alignment_of(span: Span, left: Sort, right: Sort) -> Result<Alignment, CompileFault>
    requires left { IsScaled left }
    requires right { IsScaled right }
    ensures sort { MatchResult result (λ a. sum_sort span left right ≡ Ok a.sort)
        (λ fault. sum_sort span left right ≡ Err fault) }
    ensures raises { IfOk result (λ a. (a.left, a.right) ≡ raises left right) }
{
    let (one, two) = numbers(span, left, right)?;
    let to = one.scale.max(two.scale);
    let (left, right) = (to - one.scale, to - two.scale);
    match sum_bound(
        raised_bound(one.bound, left),
        raised_bound(two.bound, right),
    ) {
        Some(bound) => Ok(Alignment {
            left,
            right,
            sort: Sort::Number { scale: to, bound },
        }),
        None => Err(CompileFault::TooWide(span)),
    }
}

// Two numbers at the greater of their scales, with what their sum is.
fn aligned(
    alloc: Global,
    span: Span,
    left: (Expr, Sort),
    right: (Expr, Sort),
) -> Result<(Expr, Expr, Sort), CompileFault>
    requires left { IsSound left }
    requires right { IsSound right }
    ensures { AlignedAnswer span left right result }
{
    let alignment = alignment_of(span, left.1, right.1)?;
    let one = raise(alloc, left.0, alignment.left);
    let two = raise(alloc, right.0, alignment.right);
    let (one, two) = both(one, two)?;
    Ok((one, two, alignment.sort))
}

// A sum, a difference or a product.
pub(crate) fn arithmetic(
    alloc: Global,
    node: &Node,
    span: Span,
    left: (Expr, Sort),
    right: (Expr, Sort),
) -> Result<(Expr, Sort), CompileFault>
    requires left { IsSound left }
    requires right { IsSound right }
    requires node { is_arithmetic node.now ≡ true }
    ensures { MadeAnswer (operator_sort node.now span left.1 right.1)
        (λ event bound. combined node.now (comes_to left event bound) (comes_to right event bound))
        (BothSorted left right) (BothEarlier left right) result }
{
    if let Node::Mul = node {
        return product(alloc, span, left, right);
    }
    let (one, other, sort) = aligned(alloc, span, left, right)?;
    let (one, other) = boxed_pair(alloc, one, other)?;
    match node {
        Node::Sub => Ok((Expr::Sub(one, other), sort)),
        _ => Ok((Expr::Add(one, other), sort)),
    }
}
