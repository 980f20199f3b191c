// Sides of comparisons that read nothing of the event at hand, and what they come to.
ghost use Rattle.std.specs.Prelude.{◌≡◌, ℤ, ◌+◌, ◌<◌, ◌≤◌, List, [], ◌++◌, false, ◌*ℤ◌, length, map, IfOk, IfSome, OnOk, slice_index_or, slice_set};
ghost use Rattle.std.specs.Option.{option_copied, option_to_list};
ghost use Rattle.std.specs.List.{All};
ghost use Rattle.sp_plan.specs.Held;
ghost use Rattle.sp_plan.specs.Held.{put, saturated};
ghost use Rattle.sp_plan.specs.Bounds as b;
ghost use Rattle.sp_plan.specs.Values;
ghost use Rattle.sp_plan.specs.Values.{BoundEvents};
ghost use Rattle.sp_plan.specs.declared.event.Event.{Event};
ghost use Rattle.sp_plan.specs.declared.plan.Expr.{Expr};

use crate::ahead::side_reads_bound;
use crate::column::HeldColumn;
use crate::eval::{earlier_value, side_value};
use crate::runs::Binds;
use crate::{Bound, Compare, Event, Expr, Memory, Pred};
use std::alloc::Global;

/// What the sides of a comparison read.
#[derive(Clone, Copy, Drop)]
pub(crate) enum Sides {
    /// No bound event, neither of them.
    Near,
    /// The left one bound events and nothing of the event at hand, the right one no bound event: the comparison
    /// is parted.
    LeftHeld,
    /// The other way round.
    RightHeld,
    /// Anything else.
    Mixed,
}

impl Sides {
    // How many columns a comparison with such sides has.
    pub(crate) fn columns(self) -> usize
        ensures { (left : Expr) (right : Expr) → result ≡ length (Held.held_of self left right) }
    {
        match self {
            Sides::Near | Sides::Mixed => 0,
            Sides::LeftHeld | Sides::RightHeld => 1,
        }
    }
}

// Whether an expression reads a column of the event at hand.
fn reads_event(expr: &Expr) -> bool
    ensures { result ≡ Held.reads_event expr.now }
{
    let mut rest = expr;
    loop {
        match rest {
            Expr::Literal(_) | Expr::Word(_) | Expr::Earlier { .. } => return false,
            Expr::Column(_) => return true,
            Expr::Raise { inner, .. } | Expr::Minus(inner) => rest = inner,
            Expr::Add(left, right) | Expr::Sub(left, right) | Expr::Mul(left, right) => {
                if reads_event(right) {
                    return true;
                }
                rest = left;
            }
        }
    }
}

// Whether it reads an event that is bound to the name.
fn reads_name(expr: &Expr, name: u8) -> bool
    ensures { result ≡ Held.reads_name name expr.now }
{
    let mut rest = expr;
    loop {
        match rest {
            Expr::Literal(_) | Expr::Word(_) | Expr::Column(_) => return false,
            Expr::Earlier { name: other, .. } => return *other == name,
            Expr::Raise { inner, .. } | Expr::Minus(inner) => rest = inner,
            Expr::Add(left, right) | Expr::Sub(left, right) | Expr::Mul(left, right) => {
                if reads_name(right, name) {
                    return true;
                }
                rest = left;
            }
        }
    }
}

/// What the sides of a comparison read.
pub(crate) fn sides_of(left: &Expr, right: &Expr) -> Sides
    ensures { result ≡ Held.sides left.now right.now }
{
    match (side_reads_bound(left), side_reads_bound(right)) {
        (false, false) => Sides::Near,
        (true, false) if !reads_event(left) => Sides::LeftHeld,
        (false, true) if !reads_event(right) => Sides::RightHeld,
        _ => Sides::Mixed,
    }
}

/// The same comparison, where its sides change places.
pub(crate) fn turned(by: Compare) -> Compare
    ensures { result ≡ Held.turned by }
{
    match by {
        Compare::Equal => Compare::Equal,
        Compare::Unequal => Compare::Unequal,
        Compare::Less => Compare::Greater,
        Compare::AtMost => Compare::AtLeast,
        Compare::Greater => Compare::Less,
        Compare::AtLeast => Compare::AtMost,
    }
}

// A number, or of those with a sign that 64 bits hold the one next to it.
fn saturated(n: i128) -> i64
    ensures { result ≡ saturated n }
{
    if n > i128::from(i64::MAX) {
        i64::MAX
    } else if n < i128::from(i64::MIN) {
        i64::MIN
    } else {
        n as i64
    }
}

// What a held side that is a product comes to, where it is a column of a bound event times a number; None for others.
#[inline(always)]
fn held_product(left: &Expr, right: &Expr, bound: &Bound) -> Option<i64>
    ensures { (event : Event) → IfSome result (λ n. n ≡ saturated
        (Values.value left.now event bound.now *ℤ Values.value right.now event bound.now)) }
{
    if let Expr::Earlier { name, column } = left
        && let Expr::Literal(by) = right
    {
        return Some(earlier_value(bound, *name, *column).saturating_mul(*by));
    }
    None
}

// What a held side comes to, mostly one of these two. The event at hand is not read.
#[inline(always)]
fn held_value(side: &Expr, event: &Event, bound: &Bound) -> i64
    requires held { Held.reads_event side.now ≡ false }
    requires within { b.StaysWithin side.now }
    requires event { b.IsSmall event.now }
    requires bound { b.AllSmall bound.now }
    ensures { result ≡ Held.held_value bound.now side.now }
{
    match side {
        Expr::Earlier { name, column } => return earlier_value(bound, *name, *column),
        Expr::Mul(left, right) => {
            if let Some(n) = held_product(left, right, bound) {
                return n;
            }
        }
        _ => {}
    }
    saturated(side_value(side, event, bound))
}

// What a held side comes to for each run.
fn column_of<R: Binds>(
    alloc: Global,
    side: &Expr,
    event: &Event,
    runs: &[R],
) -> Result<HeldColumn, Memory>
    requires held { Held.reads_event side.now ≡ false }
    requires within { b.StaysWithin side.now }
    requires event { b.IsSmall event.now }
    requires few { length runs.now ≤ 64 }
    requires bound { All (λ run. b.AllSmall (R.binds run)) runs.now }
    ensures { IfOk result (λ column. column ≡ Held.held_column (map R.binds runs.now) side.now) }
{
    let mut values = Vec::with_capacity(alloc, runs.len())?;
    for run in runs {
        values.push_reserved(held_value(side, event, run.bound()));
    }
    Ok(HeldColumn::of(values))
}

// Adds a column for the held side of a comparison, where it is parted.
fn hold_side<R: Binds>(
    alloc: Global,
    left: &Expr,
    right: &Expr,
    event: &Event,
    runs: &[R],
    columns: &mut Vec<HeldColumn>,
) -> Result<(), Memory>
    requires left { b.StaysWithin left.now }
    requires right { b.StaysWithin right.now }
    requires event { b.IsSmall event.now }
    requires few { length runs.now ≤ 64 }
    requires bound { All (λ run. b.AllSmall (R.binds run)) runs.now }
    ensures { OnOk result (columns.new.items ≡ columns.old.items
        ++ map (Held.held_column (map R.binds runs.now))
        (Held.held_of (Held.sides left.now right.now) left.now right.now)) }
{
    match sides_of(left, right) {
        Sides::LeftHeld => columns.push(column_of(alloc, left, event, runs)?)?,
        Sides::RightHeld => columns.push(column_of(alloc, right, event, runs)?)?,
        Sides::Near | Sides::Mixed => {}
    }
    Ok(())
}

// Adds a column for each held side of the predicate's parted comparisons. Calls nest as deep as brackets and NOTs
// do.
fn add_columns<R: Binds>(
    alloc: Global,
    pred: &Pred,
    event: &Event,
    runs: &[R],
    columns: &mut Vec<HeldColumn>,
) -> Result<(), Memory>
    requires within { b.PredWithin pred.now }
    requires event { b.IsSmall event.now }
    requires few { length runs.now ≤ 64 }
    requires bound { All (λ run. b.AllSmall (R.binds run)) runs.now }
    ensures { OnOk result (columns.new.items
        ≡ columns.old.items ++ Held.held_columns pred.now (map R.binds runs.now)) }
{
    let mut rest = pred;
    loop {
        match rest {
            Pred::Always => return Ok(()),
            Pred::Test { left, right, .. } => {
                return hold_side(alloc, left, right, event, runs, columns);
            }
            Pred::And(left, right) | Pred::Or(left, right) => {
                add_columns(alloc, right, event, runs, columns)?;
                rest = left;
            }
            Pred::Not(inner) => rest = inner,
        }
    }
}

/// A column for each held side of the predicate's parted comparisons, in the order in which `holding` meets them:
/// what it comes to over the events that each run has bound, as the nearest number of 64 bits where it doesn't
/// fit. Any small event serves as the event at hand: it is not read.
pub fn hold_columns<R: Binds>(
    alloc: Global,
    pred: &Pred,
    event: &Event,
    runs: &[R],
) -> Result<Vec<HeldColumn>, Memory>
    requires within { b.PredWithin pred.now }
    requires event { b.IsSmall event.now }
    requires few { length runs.now ≤ 64 }
    requires bound { All (λ run. b.AllSmall (R.binds run)) runs.now }
    ensures { IfOk result (λ columns.
        columns.items ≡ Held.held_columns pred.now (map R.binds runs.now)) }
{
    let mut columns = Vec::new(alloc);
    add_columns(alloc, pred, event, runs, &mut columns)?;
    Ok(columns)
}

// The held side of a comparison, where it is parted.
fn held_side<'a>(left: &'a Expr, right: &'a Expr) -> Option<&'a Expr>
    ensures { option_to_list (option_copied result)
        ≡ Held.held_of (Held.sides left.now right.now) left.now right.now }
{
    match sides_of(left, right) {
        Sides::LeftHeld => Some(left),
        Sides::RightHeld => Some(right),
        Sides::Near | Sides::Mixed => None,
    }
}

// The column at this place has the value for the run from now on. Answers the next place.
fn put_at(columns: &mut [HeldColumn], at: usize, run: usize, value: i64) -> Result<usize, Memory>
    requires within { at < length columns.old }
    requires few { run < 64 }
    ensures next { IfOk result (λ next. next ≡ at + 1) }
    ensures size { length columns.new ≡ length columns.old }
    ensures put { OnOk result (columns.new
        ≡ slice_set columns.old at (put (slice_index_or columns.old at []) run value)) }
{
    columns[at].put(run, value)?;
    Ok(at + 1)
}

// The columns of the predicate's parted comparisons, from the first place on, have what their held sides come to over
// what is bound for the run at a place. Answers the place behind them.
fn put_values(
    pred: &Pred,
    event: &Event,
    bound: &Bound,
    run: usize,
    columns: &mut [HeldColumn],
    first: usize,
) -> Result<usize, Memory>
    requires within { b.PredWithin pred.now }
    requires event { b.IsSmall event.now }
    requires bound { b.AllSmall bound.now }
    requires few { run < 64 }
    requires room { first + length (Held.held_sides pred.now) ≤ length columns.old }
    ensures behind { IfOk result (λ next. next ≡ first + length (Held.held_sides pred.now)) }
    ensures size { length columns.new ≡ length columns.old }
    ensures put { (bounds : List BoundEvents) (front back : List (List ℤ))
        → columns.old ≡ front ++ Held.held_columns pred.now bounds ++ back → length front ≡ first
        → OnOk result (columns.new
        ≡ front ++ Held.held_columns pred.now (put bounds run bound.now) ++ back) }
{
    let mut rest = pred;
    let mut next = first;
    loop {
        match rest {
            Pred::Always => return Ok(next),
            Pred::Test { left, right, .. } => {
                return match held_side(left, right) {
                    Some(side) => put_at(columns, next, run, held_value(side, event, bound)),
                    None => Ok(next),
                };
            }
            Pred::And(left, right) | Pred::Or(left, right) => {
                next = put_values(right, event, bound, run, columns, next)?;
                rest = left;
            }
            Pred::Not(inner) => rest = inner,
        }
    }
}

/// The columns of a predicate's held sides, when the run at this place has bound these events; it may be one run more,
/// behind the others. Any small event serves as the event at hand: it is not read. Takes memory for one run more
/// alone; after want of it nothing is known of the columns.
pub fn hold_run(
    pred: &Pred,
    event: &Event,
    bound: &Bound,
    run: usize,
    columns: &mut [HeldColumn],
) -> Result<(), Memory>
    requires within { b.PredWithin pred.now }
    requires event { b.IsSmall event.now }
    requires bound { b.AllSmall bound.now }
    requires few { run < 64 }
    requires room { length (Held.held_sides pred.now) ≤ length columns.old }
    ensures size { length columns.new ≡ length columns.old }
    ensures held { (bounds : List BoundEvents) → columns.old ≡ Held.held_columns pred.now bounds
        → OnOk result (columns.new ≡ Held.held_columns pred.now (put bounds run bound.now)) }
{
    put_values(pred, event, bound, run, columns, 0)?;
    Ok(())
}

/// Whether a held side of one of the predicate's parted comparisons reads an event that is bound to the name: where
/// none does, the columns stay as they are when a run binds it.
pub fn held_sides_read(pred: &Pred, name: u8) -> bool
    ensures { result ≡ Held.held_sides_read name pred.now }
{
    let mut rest = pred;
    loop {
        match rest {
            Pred::Always => return false,
            Pred::Test { left, right, .. } => {
                return match sides_of(left, right) {
                    Sides::LeftHeld => reads_name(left, name),
                    Sides::RightHeld => reads_name(right, name),
                    Sides::Near | Sides::Mixed => false,
                };
            }
            Pred::And(left, right) | Pred::Or(left, right) => {
                if held_sides_read(right, name) {
                    return true;
                }
                rest = left;
            }
            Pred::Not(inner) => rest = inner,
        }
    }
}
