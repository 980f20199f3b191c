// Whether plans, events and bound events are the same. Plans may have their parts at other places in
// memory; events and bound events are the same exactly where they are equal.
ghost use Rattle.std.specs.Prelude.{◌≡◌, ◌↔◌, IsTrue};
ghost use Rattle.std.specs.List.{AllZip};
ghost use Rattle.sp_plan.specs.Same.{SameExpr, SamePred, SameName, SameOpening, SamePlan};

use crate::{Column, Element, Event, Expr, Name, Opening, Plan, Pred, Schema, Text};

// Whether two expressions are the same but for addresses.
fn same_expr(x: &Expr, y: &Expr) -> bool
    ensures { IsTrue result ↔ SameExpr x.now y.now }
{
    match (x, y) {
        (Expr::Literal(n), Expr::Literal(m)) => n == m,
        (Expr::Word(n), Expr::Word(m)) => n == m,
        (Expr::Column(n), Expr::Column(m)) => n == m,
        (
            Expr::Earlier { name, column },
            Expr::Earlier {
                name: other,
                column: field,
            },
        ) => name == other && column == field,
        (
            Expr::Raise { by, inner },
            Expr::Raise {
                by: times,
                inner: other,
            },
        ) => by == times && same_expr(inner, other),
        (Expr::Minus(inner), Expr::Minus(other)) => same_expr(inner, other),
        (Expr::Add(left, right), Expr::Add(first, second)) => {
            same_expr(left, first) && same_expr(right, second)
        }
        (Expr::Sub(left, right), Expr::Sub(first, second)) => {
            same_expr(left, first) && same_expr(right, second)
        }
        (Expr::Mul(left, right), Expr::Mul(first, second)) => {
            same_expr(left, first) && same_expr(right, second)
        }
        _ => false,
    }
}

// Whether two predicates are the same but for addresses.
fn same_pred(x: &Pred, y: &Pred) -> bool
    ensures { IsTrue result ↔ SamePred x.now y.now }
{
    match (x, y) {
        (Pred::Always, Pred::Always) => true,
        (
            Pred::Test { by, left, right },
            Pred::Test {
                by: so,
                left: first,
                right: second,
            },
        ) => by == so && same_expr(left, first) && same_expr(right, second),
        (Pred::And(left, right), Pred::And(first, second)) => {
            same_pred(left, first) && same_pred(right, second)
        }
        (Pred::Or(left, right), Pred::Or(first, second)) => {
            same_pred(left, first) && same_pred(right, second)
        }
        (Pred::Not(inner), Pred::Not(other)) => same_pred(inner, other),
        _ => false,
    }
}

// Whether two texts are one.
fn same_text(x: &Text, y: &Text) -> bool
    ensures { IsTrue result ↔ (x.now ≡ y.now) }
{
    x.as_str() == y.as_str()
}

// Whether two names are the same but for addresses.
fn same_name(x: &Name, y: &Name) -> bool
    ensures { IsTrue result ↔ SameName x.now y.now }
{
    same_text(&x.text, &y.text) && same_pred(&x.pred, &y.pred) && x.consumed == y.consumed
}

// Whether the names of two lists are the same but for addresses.
fn same_names(xs: &[Name], ys: &[Name]) -> bool
    ensures { IsTrue result ↔ AllZip SameName xs.now ys.now }
{
    if xs.len() != ys.len() {
        return false;
    }
    for i in 0..xs.len() {
        if !same_name(&xs[i], &ys[i]) {
            return false;
        }
    }
    true
}

// Whether the same events open windows.
fn same_opening(x: &Opening, y: &Opening) -> bool
    ensures { IsTrue result ↔ SameOpening x.now y.now }
{
    match (x, y) {
        (Opening::EveryEvents(n), Opening::EveryEvents(m)) => n == m,
        (Opening::EveryTime(n), Opening::EveryTime(m)) => n == m,
        (Opening::When(one), Opening::When(other)) => same_pred(one, other),
        _ => false,
    }
}

// Whether two lists of texts are one.
fn same_texts(xs: &[Text], ys: &[Text]) -> bool
    ensures { IsTrue result ↔ (xs.now ≡ ys.now) }
{
    xs == ys
}

// Whether two lists of columns are one.
fn same_columns(xs: &[Column], ys: &[Column]) -> bool
    ensures { IsTrue result ↔ (xs.now ≡ ys.now) }
{
    xs == ys
}

// Whether two lists of elements are one.
fn same_elements(xs: &[Element], ys: &[Element]) -> bool
    ensures { IsTrue result ↔ (xs.now ≡ ys.now) }
{
    xs == ys
}

// Whether two schemas are one.
fn same_schema(x: &Schema, y: &Schema) -> bool
    ensures { IsTrue result ↔ (x.now ≡ y.now) }
{
    same_columns(x.columns.as_slice(), y.columns.as_slice()) && x.time == y.time
}

impl Plan {
    /// Whether two plans are the same but for where their parts lie in memory. Takes no memory.
    pub fn same(&self, other: &Plan) -> bool
        ensures { IsTrue result ↔ SamePlan self.now other.now }
    {
        same_schema(&self.schema, &other.schema)
            && same_names(self.names.as_slice(), other.names.as_slice())
            && same_elements(self.elements.as_slice(), other.elements.as_slice())
            && self.select == other.select
            && self.length == other.length
            && same_opening(&self.opening, &other.opening)
            && same_texts(self.texts.as_slice(), other.texts.as_slice())
    }
}

impl Event {
    /// Whether two events are equal. Takes no memory.
    #[inline]
    pub fn same(&self, other: &Event) -> bool
        ensures { IsTrue result ↔ (self.now ≡ other.now) }
    {
        self.time == other.time && self.values.same(&other.values)
    }

    /// Whether two lists have the same events. Takes no memory.
    pub fn all_same(events: &[Event], others: &[Event]) -> bool
        ensures { IsTrue result ↔ (events.now ≡ others.now) }
    {
        if events.len() != others.len() {
            return false;
        }
        for i in 0..events.len() {
            if !events[i].same(&others[i]) {
                return false;
            }
        }
        true
    }
}
