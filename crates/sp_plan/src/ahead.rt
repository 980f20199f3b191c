// What is known of a predicate of an event whatever other events are bound.
ghost use Rattle.std.specs.Prelude.{◌≡◌, Bool, false, []};
ghost use Rattle.sp_plan.specs.Values;
ghost use Rattle.sp_plan.specs.Values.{BoundEvents};
ghost use Rattle.sp_plan.specs.Bounds as b;
ghost use Rattle.sp_plan.specs.Known;

use crate::eval::sides_compare;
use crate::{Bound, Event, Expr, Pred};
use std::alloc::Global;

// Whether an expression reads an event that is bound.
fn reads_bound(expr: &Expr) -> bool
    ensures { result ≡ Known.reads_bound expr.now }
{
    let mut rest = expr;
    loop {
        match rest {
            Expr::Literal(_) | Expr::Word(_) | Expr::Column(_) => return false,
            Expr::Earlier { .. } => return true,
            Expr::Raise { inner, .. } | Expr::Minus(inner) => rest = inner,
            Expr::Add(left, right) | Expr::Sub(left, right) | Expr::Mul(left, right) => {
                if reads_bound(right) {
                    return true;
                }
                rest = left;
            }
        }
    }
}

// The same of a side of a comparison, which is mostly no operator.
#[inline(always)]
pub(crate) fn side_reads_bound(expr: &Expr) -> bool
    ensures { result ≡ Known.reads_bound expr.now }
{
    match expr {
        Expr::Literal(_) | Expr::Word(_) | Expr::Column(_) => false,
        Expr::Earlier { .. } => true,
        _ => reads_bound(expr),
    }
}

// Whether a predicate may come to the answer. A NOT turns the answer that is asked for; of an AND both
// sides have to hold, and one is enough to fail, and of an OR the other way round.
fn may_be(answer: bool, pred: &Pred, event: &Event, none: &Bound) -> bool
    requires within { b.PredWithin pred.now }
    requires event { b.IsSmall event.now }
    requires none { none.now ≡ [] }
    ensures { result ≡ Known.may_be answer pred.now event.now }
{
    let mut wanted = answer;
    let mut rest = pred;
    loop {
        match rest {
            Pred::Always => return wanted,
            Pred::Test { by, left, right } => {
                return side_reads_bound(left)
                    || side_reads_bound(right)
                    || sides_compare(*by, left, right, event, none) == wanted;
            }
            Pred::And(left, right) => {
                let may = may_be(wanted, right, event, none);
                if may != wanted {
                    return may;
                }
                rest = left;
            }
            Pred::Or(left, right) => {
                let may = may_be(wanted, right, event, none);
                if may == wanted {
                    return may;
                }
                rest = left;
            }
            Pred::Not(inner) => {
                wanted = !wanted;
                rest = inner;
            }
        }
    }
}

/// Whether the predicate may hold of the event at hand: where it may not, it holds over no bound events
/// whatever. A comparison that reads an event bound earlier may come to either. Takes no memory, and costs
/// what `holds` does and one look at each operand more; calls nest as there.
pub fn may_hold(alloc: Global, pred: &Pred, event: &Event) -> bool
    requires within { b.PredWithin pred.now }
    requires event { b.IsSmall event.now }
    ensures value { result ≡ Known.may_hold pred.now event.now }
    ensures sure { result ≡ false →
        (bound : BoundEvents) → Values.holds pred.now event.now bound ≡ false }
{
    may_be(true, pred, event, &Bound::new(alloc))
}

/// What the predicate comes to of the event at hand, whatever events are bound; None where that is not
/// known, since it depends on one of them. Costs at most twice what `may_hold` does.
pub fn known(alloc: Global, pred: &Pred, event: &Event) -> Option<bool>
    requires within { b.PredWithin pred.now }
    requires event { b.IsSmall event.now }
    ensures value { result ≡ Known.known pred.now event.now }
    ensures sure { (answer : Bool) → result ≡ Some answer →
        (bound : BoundEvents) → Values.holds pred.now event.now bound ≡ answer }
{
    let none = Bound::new(alloc);
    if !may_be(true, pred, event, &none) {
        Some(false)
    } else if !may_be(false, pred, event, &none) {
        Some(true)
    } else {
        None
    }
}
