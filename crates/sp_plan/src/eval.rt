// What expressions come to, and whether predicates hold.
ghost use Rattle.std.specs.Prelude.{◌≡◌, ◌≤◌, ◌+◌, ◌*◌, ◌^◌, ◌+ℤ◌, ◌*ℤ◌, neg_ℤ, pos, unsigned_abs, ◌<◌, IfSome};
ghost use Rattle.sp_base.specs.Limits.{number_limit};
ghost use Rattle.sp_plan.specs.Values;
ghost use Rattle.sp_plan.specs.Values.{BoundEvents, column_of, earlier_column, last_bound};
ghost use Rattle.sp_plan.specs.Bounds as b;

use crate::{Bound, Compare, Event, Expr, Pred};

// The powers of ten that an i64 holds, from the one of 0 on.
const POWERS: [i64; 19] = [
    1,
    10,
    100,
    1_000,
    10_000,
    100_000,
    1_000_000,
    10_000_000,
    100_000_000,
    1_000_000_000,
    10_000_000_000,
    100_000_000_000,
    1_000_000_000_000,
    10_000_000_000_000,
    100_000_000_000_000,
    1_000_000_000_000_000,
    10_000_000_000_000_000,
    100_000_000_000_000_000,
    1_000_000_000_000_000_000,
];

// Ten to this power.
#[inline]
fn short_power(by: u8) -> i64
    requires { by < 19 }
    ensures { result ≡ pos (10 ^ by) }
{
    POWERS[by as usize]
}

// Ten to this power.
fn power_of_ten(by: u8) -> i128
    requires { by ≤ 36 }
    ensures { result ≡ pos (10 ^ by) }
{
    if by < 19 {
        i128::from(short_power(by))
    } else {
        scaled(
            i128::from(short_power(18)),
            i128::from(short_power(by - 18)),
        )
    }
}

// What stands in a column, as a number; 0 where the event has no such column.
#[inline(always)]
fn column_value(event: &Event, column: u16) -> i64
    ensures value { result ≡ column_of column event.now }
    ensures small { b.IsSmall event.now → unsigned_abs result ≤ number_limit }
{
    event.values.number(column as usize)
}

// What stands in a column of the last event that is bound to a name; 0 where there is none.
#[inline(always)]
pub(crate) fn earlier_value(bound: &Bound, name: u8, column: u16) -> i64
    ensures value { result ≡ earlier_column (last_bound name bound.now) column }
    ensures small { b.AllSmall bound.now → unsigned_abs result ≤ number_limit }
{
    match bound.get(name) {
        Some(event) => column_value(event, column),
        None => 0,
    }
}

// What a literal, a text of the query or a column of the event at hand comes to; None for anything else.
#[inline(always)]
fn near(expr: &Expr, event: &Event) -> Option<i64>
    ensures { (bound : BoundEvents) → IfSome result (λ n. n ≡ Values.value expr.now event.now bound) }
{
    match expr {
        Expr::Literal(n) => Some(*n),
        Expr::Word(symbol) => Some(i64::from(*symbol)),
        Expr::Column(column) => Some(column_value(event, *column)),
        _ => None,
    }
}

// What a part of a product comes to that is no operator; None for an operator.
#[inline(never)]
fn factor(expr: &Expr, event: &Event, bound: &Bound) -> Option<i64>
    ensures { IfSome result (λ n. n ≡ Values.value expr.now event.now bound.now) }
{
    match expr {
        Expr::Literal(n) => Some(*n),
        Expr::Word(symbol) => Some(i64::from(*symbol)),
        Expr::Column(column) => Some(column_value(event, *column)),
        Expr::Earlier { name, column } => Some(earlier_value(bound, *name, *column)),
        _ => None,
    }
}

// The same, where it is mostly a column: it is read in place.
#[inline(always)]
fn column_factor(expr: &Expr, event: &Event, bound: &Bound) -> Option<i64>
    ensures { IfSome result (λ n. n ≡ Values.value expr.now event.now bound.now) }
{
    match expr {
        Expr::Column(column) => Some(column_value(event, *column)),
        Expr::Earlier { name, column } => {
            let value = earlier_value(bound, *name, *column);
            Some(value)
        }
        _ => factor(expr, event, bound),
    }
}

// The product of two numbers, which 128 bits hold whatever they are.
#[inline(always)]
fn times(one: i64, other: i64) -> i128
    ensures { result ≡ one *ℤ other }
{
    i128::from(one) * i128::from(other)
}

// What the product of two such parts comes to; None for other parts. A number, which one of them is in most
// products, is read in place.
#[inline(always)]
fn product(left: &Expr, right: &Expr, event: &Event, bound: &Bound) -> Option<i128>
    ensures { IfSome result (λ n. n ≡ Values.value left.now event.now bound.now
        *ℤ Values.value right.now event.now bound.now) }
{
    if let Expr::Literal(by) = right {
        return Some(times(column_factor(left, event, bound)?, *by));
    }
    if let Expr::Literal(by) = left {
        return Some(times(*by, factor(right, event, bound)?));
    }
    let by = factor(right, event, bound)?;
    Some(times(factor(left, event, bound)?, by))
}

// What a part or the product of two comes to; None for anything else, and where it doesn't fit.
#[inline(never)]
fn part(expr: &Expr, event: &Event, bound: &Bound) -> Option<i64>
    ensures { IfSome result (λ n. n ≡ Values.value expr.now event.now bound.now) }
{
    match expr {
        Expr::Mul(left, right) => {
            let by = factor(right, event, bound)?;
            factor(left, event, bound)?.checked_mul(by)
        }
        _ => factor(expr, event, bound),
    }
}

// The same of what is raised, which is mostly a column.
#[inline(always)]
fn raised_part(expr: &Expr, event: &Event, bound: &Bound) -> Option<i64>
    ensures { IfSome result (λ n. n ≡ Values.value expr.now event.now bound.now) }
{
    match expr {
        Expr::Column(column) => Some(column_value(event, *column)),
        _ => part(expr, event, bound),
    }
}

// What a part or the product of two comes to, or one of these raised; None for anything else, and where
// it doesn't fit.
#[inline(always)]
fn short_value(expr: &Expr, event: &Event, bound: &Bound) -> Option<i128>
    ensures { IfSome result (λ n. n ≡ Values.value expr.now event.now bound.now) }
{
    match expr {
        Expr::Mul(left, right) => product(left, right, event, bound),
        Expr::Raise { by, inner } if *by < 19 => Some(times(
            raised_part(inner, event, bound)?,
            short_power(*by),
        )),
        _ => Some(i128::from(column_factor(expr, event, bound)?)),
    }
}

// A factor times a value. A factor beside which the rest of a product is 0 may be of any size, and
// what its bits wrap to is as good.
fn scaled(factor: i128, by: i128) -> i128
    ensures { unsigned_abs factor * unsigned_abs by ≤ b.greatest → result ≡ factor *ℤ by }
{
    factor.wrapping_mul(by)
}

// A factor with its sign turned, likewise.
fn turned(factor: i128) -> i128
    ensures { unsigned_abs factor ≤ b.greatest → result ≡ neg_ℤ factor }
{
    factor.wrapping_neg()
}

// A sum and a factor times a value more, where that stays in bounds.
fn added(sum: i128, factor: i128, value: i128) -> i128
    requires { unsigned_abs sum + unsigned_abs factor * unsigned_abs value ≤ b.greatest }
    ensures value { result ≡ sum +ℤ factor *ℤ value }
    ensures small { unsigned_abs result ≤
        unsigned_abs sum + unsigned_abs factor * unsigned_abs value }
{
    sum + factor * value
}

// What a chain of operators comes to, which group from the left: it is gone along in a loop, and each
// right side is a call.
#[cycle(value)]
fn chain(expr: &Expr, event: &Event, bound: &Bound) -> i128
    requires within { b.StaysWithin expr.now }
    requires event { b.IsSmall event.now }
    requires bound { b.AllSmall bound.now }
    ensures value { result ≡ Values.value expr.now event.now bound.now }
    ensures small { unsigned_abs result ≤ b.bound expr.now }
    ensures greatest { unsigned_abs result ≤ b.greatest }
{
    // The expression comes to the sum and the factor times the rest.
    let mut sum = 0;
    let mut factor = 1;
    let mut rest = expr;
    loop {
        match rest {
            Expr::Literal(n) => return added(sum, factor, i128::from(*n)),
            Expr::Word(symbol) => return added(sum, factor, i128::from(*symbol)),
            Expr::Column(column) => {
                return added(sum, factor, i128::from(column_value(event, *column)));
            }
            Expr::Earlier { name, column } => {
                return added(
                    sum,
                    factor,
                    i128::from(earlier_value(bound, *name, *column)),
                );
            }
            Expr::Raise { by, inner } => {
                factor = scaled(factor, power_of_ten(*by));
                rest = inner;
            }
            Expr::Minus(inner) => {
                factor = turned(factor);
                rest = inner;
            }
            Expr::Add(left, right) => {
                sum = added(sum, factor, value(right, event, bound));
                rest = left;
            }
            Expr::Sub(left, right) => {
                sum = added(sum, factor, -value(right, event, bound));
                rest = left;
            }
            Expr::Mul(left, right) => {
                factor = scaled(factor, value(right, event, bound));
                rest = left;
            }
        }
    }
}

/// What an expression comes to, in units of its scale, over the event at hand and the events bound
/// before it; a text comes to its number. Takes no memory. No sum in between passes 10^36 in
/// magnitude. Calls nest as deep as brackets do, however long chains of operators are.
#[cycle(value)]
pub fn value(expr: &Expr, event: &Event, bound: &Bound) -> i128
    requires within { b.StaysWithin expr.now }
    requires event { b.IsSmall event.now }
    requires bound { b.AllSmall bound.now }
    ensures value { result ≡ Values.value expr.now event.now bound.now }
    ensures small { unsigned_abs result ≤ b.bound expr.now }
    ensures greatest { unsigned_abs result ≤ b.greatest }
{
    match expr {
        Expr::Literal(n) => i128::from(*n),
        Expr::Word(symbol) => i128::from(*symbol),
        Expr::Column(column) => i128::from(column_value(event, *column)),
        Expr::Earlier { name, column } => i128::from(earlier_value(bound, *name, *column)),
        _ => chain(expr, event, bound),
    }
}

// What a side of a comparison comes to, whatever it is: mostly what `short_value` tells.
pub(crate) fn side_value(side: &Expr, event: &Event, bound: &Bound) -> i128
    requires within { b.StaysWithin side.now }
    requires event { b.IsSmall event.now }
    requires bound { b.AllSmall bound.now }
    ensures { result ≡ Values.value side.now event.now bound.now }
{
    match short_value(side, event, bound) {
        Some(n) => n,
        None => value(side, event, bound),
    }
}

// Whether two values compare so.
#[inline]
fn compares(by: Compare, left: i128, right: i128) -> bool
    ensures { result ≡ Values.compares by left right }
{
    match by {
        Compare::Equal => left == right,
        Compare::Unequal => left != right,
        Compare::Less => left < right,
        Compare::AtMost => left <= right,
        Compare::Greater => left > right,
        Compare::AtLeast => left >= right,
    }
}

// The same of two values of 64 bits. In a function of its own, since the compiler keeps to 128 bits in part of the
// other one, and most comparisons are of such values.
#[inline(always)]
fn short_compares(by: Compare, left: i64, right: i64) -> bool
    ensures { result ≡ Values.compares by left right }
{
    match by {
        Compare::Equal => left == right,
        Compare::Unequal => left != right,
        Compare::Less => left < right,
        Compare::AtMost => left <= right,
        Compare::Greater => left > right,
        Compare::AtLeast => left >= right,
    }
}

// Whether what two sides come to compares so, whatever they are.
#[inline(never)]
fn long_sides_compare(by: Compare, left: &Expr, right: &Expr, event: &Event, bound: &Bound) -> bool
    requires left { b.StaysWithin left.now }
    requires right { b.StaysWithin right.now }
    requires event { b.IsSmall event.now }
    requires bound { b.AllSmall bound.now }
    ensures { result ≡ Values.compares by
        (Values.value left.now event.now bound.now) (Values.value right.now event.now bound.now) }
{
    if let Some(other) = short_value(right, event, bound)
        && let Some(one) = short_value(left, event, bound)
    {
        return compares(by, one, other);
    }
    compares(by, value(left, event, bound), value(right, event, bound))
}

// Whether a number compares so with a column of the last event that is bound to a name.
#[inline(never)]
fn earlier_compares(by: Compare, one: i64, name: u8, column: u16, bound: &Bound) -> bool
    ensures { result ≡ Values.compares by one (earlier_column (last_bound name bound.now) column) }
{
    short_compares(by, one, earlier_value(bound, name, column))
}

// Whether what two sides come to compares so: a column of the event at hand is compared in place, and in
// 64 bits, with what is no operator.
#[inline]
pub(crate) fn sides_compare(
    by: Compare,
    left: &Expr,
    right: &Expr,
    event: &Event,
    bound: &Bound,
) -> bool
    requires left { b.StaysWithin left.now }
    requires right { b.StaysWithin right.now }
    requires event { b.IsSmall event.now }
    requires bound { b.AllSmall bound.now }
    ensures { result ≡ Values.compares by
        (Values.value left.now event.now bound.now) (Values.value right.now event.now bound.now) }
{
    if let Expr::Column(column) = left {
        if let Some(other) = near(right, event) {
            let one = column_value(event, *column);
            return short_compares(by, one, other);
        }
        if let Expr::Earlier {
            name,
            column: earlier,
        } = right
        {
            let one = column_value(event, *column);
            return earlier_compares(by, one, *name, *earlier, bound);
        }
    } else if let Some(one) = near(left, event)
        && let Some(other) = near(right, event)
    {
        return short_compares(by, one, other);
    }
    long_sides_compare(by, left, right, event, bound)
}

// Whether a chain of ANDs, ORs and NOTs holds: it is gone along in a loop, and each right side is a call.
#[cycle(holds)]
#[inline(never)]
fn chain_holds(pred: &Pred, event: &Event, bound: &Bound) -> bool
    requires within { b.PredWithin pred.now }
    requires event { b.IsSmall event.now }
    requires bound { b.AllSmall bound.now }
    ensures { result ≡ Values.holds pred.now event.now bound.now }
{
    let mut rest = pred;
    loop {
        match rest {
            Pred::Always => return true,
            Pred::Test { by, left, right } => {
                return sides_compare(*by, left, right, event, bound);
            }
            Pred::And(left, right) => {
                if !holds(right, event, bound) {
                    return false;
                }
                rest = left;
            }
            Pred::Or(left, right) => {
                if holds(right, event, bound) {
                    return true;
                }
                rest = left;
            }
            Pred::Not(inner) => return !holds(inner, event, bound),
        }
    }
}

/// Whether a predicate holds of the event at hand, over the events bound before it. Takes no memory.
/// Of a chain the right side is tried first, and the left one gone on with in a loop; calls nest as
/// deep as brackets and NOTs do.
#[cycle(holds)]
pub fn holds(pred: &Pred, event: &Event, bound: &Bound) -> bool
    requires within { b.PredWithin pred.now }
    requires event { b.IsSmall event.now }
    requires bound { b.AllSmall bound.now }
    ensures { result ≡ Values.holds pred.now event.now bound.now }
{
    match pred {
        Pred::Test { by, left, right } => sides_compare(*by, left, right, event, bound),
        _ => chain_holds(pred, event, bound),
    }
}
