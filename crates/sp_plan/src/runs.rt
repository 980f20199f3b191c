// A predicate asked once for all runs of a window.
ghost use Rattle.std.specs.Prelude.{◌≡◌, ℕ, ℤ, ◌+◌, ◌<◌, ◌≤◌, ◌&&◌, [], List, true, false, length, map, pos, slice_index_or, IfSome};
ghost use Rattle.std.specs.List.{All};
ghost use Rattle.sp_plan.specs.Bounds as b;
ghost use Rattle.sp_plan.specs.Held;
ghost use Rattle.sp_plan.specs.Held.{IsInside, held_columns, held_sides, saturated};
ghost use Rattle.sp_plan.specs.Holding.{AreFrom, AreHeldFrom};
ghost use Rattle.sp_plan.specs.Masks.{has, outcome};
ghost use Rattle.sp_plan.specs.Values;
ghost use Rattle.sp_plan.specs.declared.event.Event.{Event};
ghost use Rattle.sp_plan.specs.declared.plan.Pred.{Test};

use crate::column::HeldColumn;
use crate::eval::{side_value, sides_compare};
use crate::held::{Sides, sides_of, turned};
use crate::masks::{has_bit, with_bit};
use crate::{Bound, Compare, Event, Expr, Pred};
use std::alloc::Global;

/// What has bound events.
pub trait Binds {
    /// The events that it has bound, each with its name.
    ghost binds: { Self → List (ℕ × Event) };

    /// The same, as predicates read them.
    fn bound(&self) -> &Bound
        ensures { result.now ≡ binds self.now };
}

// An event that a predicate is asked of, for some runs.
#[derive(Drop)]
struct Asking<'a, R> {
    event: &'a Event,
    // no event is bound here
    none: &'a Bound,
    // what the held sides come to for the runs
    columns: &'a [HeldColumn],
    runs: &'a [R],
}

// What a side comes to that reads no bound event, where 64 bits hold it with room to spare.
fn near_value(side: &Expr, event: &Event, none: &Bound) -> Option<i64>
    requires within { b.StaysWithin side.now }
    requires event { b.IsSmall event.now }
    requires none { none.now ≡ [] }
    ensures is { IfSome result (λ n. n ≡ Values.value side.now event.now []) }
    ensures inside { IfSome result (λ n. IsInside n) }
{
    let most = i128::from(i64::MAX);
    let n = side_value(side, event, none);
    if -most < n && n < most {
        Some(n as i64)
    } else {
        None
    }
}

// For which runs a near side compares so with the held side that the column tells; None where 64 bits don't hold
// the near one.
fn parted(by: Compare, near: &Expr, event: &Event, none: &Bound, column: &HeldColumn) -> Option<u64>
    requires near { b.StaysWithin near.now }
    requires event { b.IsSmall event.now }
    requires none { none.now ≡ [] }
    ensures { IfSome result (λ mask. (run : ℕ) (n : ℤ) → run < 64 → run < length column.now
        → slice_index_or column.now run (pos 0) ≡ saturated n
        → has mask run ≡ Values.compares by (Values.value near.now event.now []) n) }
{
    let one = near_value(near, event, none)?;
    Some(column.compared(by, one))
}

// For which runs a comparison holds, where that is told of all of them at once.
fn at_once<R: Binds>(
    sides: Sides,
    by: Compare,
    left: &Expr,
    right: &Expr,
    asking: &Asking<R>,
    next: usize,
) -> Option<u64>
    requires left { b.StaysWithin left.now }
    requires right { b.StaysWithin right.now }
    requires sides { sides ≡ Held.sides left.now right.now }
    requires event { b.IsSmall asking.now.event.now }
    requires few { length asking.now.runs.now ≤ 64 }
    requires none { asking.now.none.now ≡ [] }
    requires held { AreFrom asking.now.columns.now next (map R.binds asking.now.runs.now)
        (Held.held_of sides left.now right.now) }
    ensures { IfSome result (λ mask. (run : ℕ) → run < length asking.now.runs.now → has mask run
        ≡ outcome (Test by left.now right.now) asking.now.event.now
        (map R.binds asking.now.runs.now) run) }
{
    let (event, none) = (asking.event, asking.none);
    match sides {
        Sides::Near => {
            let is = sides_compare(by, left, right, event, none);
            Some(if is { u64::MAX } else { 0 })
        }
        Sides::LeftHeld => parted(turned(by), right, event, none, &asking.columns[next]),
        Sides::RightHeld => parted(by, left, event, none, &asking.columns[next]),
        Sides::Mixed => None,
    }
}

// Those of the runs that are asked for which a comparison holds, each asked by itself.
fn each_asked<R: Binds>(
    by: Compare,
    left: &Expr,
    right: &Expr,
    asking: &Asking<R>,
    asked: u64,
) -> u64
    requires left { b.StaysWithin left.now }
    requires right { b.StaysWithin right.now }
    requires event { b.IsSmall asking.now.event.now }
    requires few { length asking.now.runs.now ≤ 64 }
    requires bound { All (λ run. b.AllSmall (R.binds run)) asking.now.runs.now }
    ensures { (run : ℕ) → run < length asking.now.runs.now → has result run ≡ (has asked run
        && outcome (Test by left.now right.now) asking.now.event.now
        (map R.binds asking.now.runs.now) run) }
{
    let mut mask = 0;
    for run in 0..asking.runs.len() {
        let is = has_bit(asked, run)
            && sides_compare(by, left, right, asking.event, asking.runs[run].bound());
        mask = with_bit(mask, run, is);
    }
    mask
}

// Those of the runs that are asked for which a comparison holds, and the place of the first column behind its own.
#[inline(always)]
fn tested<R: Binds>(
    by: Compare,
    left: &Expr,
    right: &Expr,
    asking: &Asking<R>,
    next: usize,
    asked: u64,
) -> (u64, usize)
    requires left { b.StaysWithin left.now }
    requires right { b.StaysWithin right.now }
    requires event { b.IsSmall asking.now.event.now }
    requires few { length asking.now.runs.now ≤ 64 }
    requires bound { All (λ run. b.AllSmall (R.binds run)) asking.now.runs.now }
    requires none { asking.now.none.now ≡ [] }
    requires held { AreFrom asking.now.columns.now next (map R.binds asking.now.runs.now)
        (held_sides (Test by left.now right.now)) }
    ensures holds { (run : ℕ) → run < length asking.now.runs.now → has result.0 run
        ≡ (has asked run && outcome (Test by left.now right.now) asking.now.event.now
        (map R.binds asking.now.runs.now) run) }
    ensures behind { result.1 ≡ next + length (held_sides (Test by left.now right.now)) }
{
    let sides = sides_of(left, right);
    let behind = next + sides.columns();
    if asked == 0 {
        return (0, behind);
    }
    let mask = match at_once(sides, by, left, right, asking, next) {
        Some(mask) => asked & mask,
        None => each_asked(by, left, right, asking, asked),
    };
    (mask, behind)
}

// Those of the runs that are asked for which a predicate holds, and the place of the first column behind its own. A
// chain of ANDs and ORs is gone along in a loop, and each right side is a call. An AND leaves those runs undecided
// for which its right side holds, and an OR the others.
fn walk<R: Binds>(pred: &Pred, asking: &Asking<R>, first: usize, asked: u64) -> (u64, usize)
    requires within { b.PredWithin pred.now }
    requires event { b.IsSmall asking.now.event.now }
    requires few { length asking.now.runs.now ≤ 64 }
    requires bound { All (λ run. b.AllSmall (R.binds run)) asking.now.runs.now }
    requires none { asking.now.none.now ≡ [] }
    requires held { AreHeldFrom asking.now.columns.now first (map R.binds asking.now.runs.now)
        pred.now }
    ensures holds { (run : ℕ) → run < length asking.now.runs.now → has result.0 run
        ≡ (has asked run && outcome pred.now asking.now.event.now
        (map R.binds asking.now.runs.now) run) }
    ensures behind { result.1 ≡ first + length (held_sides pred.now) }
{
    let mut won = 0;
    let mut undecided = asked;
    let mut next = first;
    let mut rest = pred;
    loop {
        match rest {
            Pred::Always => return (won | undecided, next),
            Pred::Test { by, left, right } => {
                let (mask, behind) = tested(*by, left, right, asking, next, undecided);
                return (won | mask, behind);
            }
            Pred::And(left, right) => {
                let (mask, behind) = walk(right, asking, next, undecided);
                undecided = mask;
                next = behind;
                rest = left;
            }
            Pred::Or(left, right) => {
                let (mask, behind) = walk(right, asking, next, undecided);
                won |= mask;
                undecided &= !mask;
                next = behind;
                rest = left;
            }
            Pred::Not(inner) => {
                let (mask, behind) = walk(inner, asking, next, undecided);
                return (won | (undecided & !mask), behind);
            }
        }
    }
}

/// For which of the runs that are asked the predicate holds of the event at hand: bit i is that of the run at place
/// i. The columns are those that `hold_columns` makes of the runs. The predicate is walked once for all runs, and
/// calls nest as deep as brackets and NOTs do; a comparison is asked run by run where it is neither parted nor the
/// same for all runs, and where 64 bits don't hold a near side. Takes no memory.
pub fn holding<R: Binds>(
    alloc: Global,
    pred: &Pred,
    event: &Event,
    columns: &[HeldColumn],
    runs: &[R],
    asked: u64,
) -> u64
    requires within { b.PredWithin pred.now }
    requires event { b.IsSmall event.now }
    requires few { length runs.now ≤ 64 }
    requires bound { All (λ run. b.AllSmall (R.binds run)) runs.now }
    requires held { columns.now ≡ held_columns pred.now (map R.binds runs.now) }
    ensures holds { (run : ℕ) → run < length runs.now → has result run
        ≡ (has asked run && outcome pred.now event.now (map R.binds runs.now) run) }
    ensures asked { (run : ℕ) → run < 64 → has result run ≡ true → has asked run ≡ true }
{
    let none = Bound::new(alloc);
    let asking = Asking {
        event,
        none: &none,
        columns,
        runs,
    };
    // One comparison isn't walked.
    if let Pred::Test { by, left, right } = pred {
        let (mask, _) = tested(*by, left, right, &asking, 0, asked);
        return asked & mask;
    }
    let (mask, _) = walk(pred, &asking, 0, asked);
    asked & mask
}
