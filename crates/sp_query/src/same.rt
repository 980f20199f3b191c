// Queries that differ in their places at most.
ghost use Rattle.std.specs.Prelude.{◌≡◌, ◌↔◌, IsTrue};
ghost use Rattle.sp_query.specs.Same.{Pairwise, SameTrees, SameTree, SameIdent, SameTime, SameColumn, SameElement, SameDefinition, SameOpening, SameConsume, SameLength, Same};

use crate::{Ident, Node, Query, QueryColumn, QueryConsume, QueryElement, QueryOpening, Tree};
use sp_base::Text;
use sp_lex::{Span, Word};

// Whether two texts are one.
fn same_text(x: &Text, y: &Text) -> bool
    ensures { IsTrue result ↔ (x.now ≡ y.now) }
{
    x.as_str() == y.as_str()
}

// Whether two roots are one.
fn same_node(x: &Node, y: &Node) -> bool
    ensures { IsTrue result ↔ (x.now ≡ y.now) }
{
    match (x, y) {
        (Node::Whole(one), Node::Whole(other)) => one == other,
        (
            Node::Decimal { units, scale },
            Node::Decimal {
                units: more,
                scale: places,
            },
        ) => units == more && scale == places,
        (Node::Literal(one), Node::Literal(other)) => same_text(one, other),
        (Node::Own(one), Node::Own(other)) => same_text(one, other),
        (Node::Earlier(one, column), Node::Earlier(other, field)) => {
            same_text(one, other) && same_text(column, field)
        }
        (Node::Test(one), Node::Test(other)) => one == other,
        (Node::Minus, Node::Minus) => true,
        (Node::Add, Node::Add) => true,
        (Node::Sub, Node::Sub) => true,
        (Node::Mul, Node::Mul) => true,
        (Node::And, Node::And) => true,
        (Node::Or, Node::Or) => true,
        (Node::Not, Node::Not) => true,
        _ => false,
    }
}

// Whether two trees are of one form.
#[cycle(trees)]
fn same_tree(x: &Tree, y: &Tree) -> bool
    ensures { IsTrue result ↔ SameTree x.now y.now }
{
    same_node(&x.node, &y.node) && same_trees(x.parts.as_slice(), y.parts.as_slice())
}

// Whether the trees of two lists are of one form, one by one.
#[cycle(trees)]
fn same_trees(xs: &[Tree], ys: &[Tree]) -> bool
    ensures { IsTrue result ↔ SameTrees xs.now ys.now }
{
    if xs.len() != ys.len() {
        return false;
    }
    for (x, y) in xs.iter().zip(ys) {
        if !same_tree(x, y) {
            return false;
        }
    }
    true
}

// A part of a query; two of them may be the same but for places.
trait Part {
    ghost alike: { Self → Self → Type 0 };

    // Whether two parts are the same.
    fn same(&self, other: &Self) -> bool
        ensures { IsTrue result ↔ alike self.now other.now };
}

// Whether the parts in two lists are the same, one by one.
fn same_list<P: Part>(xs: &[P], ys: &[P]) -> bool
    ensures { IsTrue result ↔ Pairwise P.alike xs.now ys.now }
{
    if xs.len() != ys.len() {
        return false;
    }
    for (x, y) in xs.iter().zip(ys) {
        if !x.same(y) {
            return false;
        }
    }
    true
}

// A name.
impl Part for Ident {
    ghost alike = { SameIdent };

    fn same(&self, other: &Ident) -> bool {
        same_text(&self.text, &other.text)
    }
}

// A column: its name and its kind.
impl Part for QueryColumn {
    ghost alike = { SameColumn };

    fn same(&self, other: &QueryColumn) -> bool {
        self.name.same(&other.name) && self.kind == other.kind && self.digits == other.digits
    }
}

// An element of the pattern.
impl Part for QueryElement {
    ghost alike = { SameElement };

    fn same(&self, other: &QueryElement) -> bool {
        match (self, other) {
            (QueryElement::One(one), QueryElement::One(other)) => one.same(other),
            (QueryElement::Plus(one, _), QueryElement::Plus(other, _)) => one.same(other),
            (QueryElement::Set(some), QueryElement::Set(others)) => {
                same_list(some.as_slice(), others.as_slice())
            }
            (QueryElement::Never(one, _), QueryElement::Never(other, _)) => one.same(other),
            _ => false,
        }
    }
}

// A definition: its name and its predicate.
impl Part for (Ident, Tree) {
    ghost alike = { SameDefinition };

    fn same(&self, other: &(Ident, Tree)) -> bool {
        self.0.same(&other.0) && same_tree(&self.1, &other.1)
    }
}

// Whether two names that may be left out are one.
fn same_time(x: &Option<Ident>, y: &Option<Ident>) -> bool
    ensures { IsTrue result ↔ SameTime x.now y.now }
{
    match (x, y) {
        (None, None) => true,
        (Some(one), Some(other)) => one.same(other),
        _ => false,
    }
}

// Whether two lengths are one.
fn same_length(x: &(u64, Word, Span), y: &(u64, Word, Span)) -> bool
    ensures { IsTrue result ↔ SameLength x.now y.now }
{
    x.0 == y.0 && x.1 == y.1
}

// Whether the same events open windows.
fn same_opening(x: &QueryOpening, y: &QueryOpening) -> bool
    ensures { IsTrue result ↔ SameOpening x.now y.now }
{
    match (x, y) {
        (QueryOpening::Every(one, word, _), QueryOpening::Every(other, unit, _)) => {
            one == other && word == unit
        }
        (QueryOpening::When(one), QueryOpening::When(other)) => same_tree(one, other),
        _ => false,
    }
}

// Whether matches consume the same names.
fn same_consume(x: &QueryConsume, y: &QueryConsume) -> bool
    ensures { IsTrue result ↔ SameConsume x.now y.now }
{
    match (x, y) {
        (QueryConsume::All, QueryConsume::All) => true,
        (QueryConsume::None, QueryConsume::None) => true,
        (QueryConsume::Names(some), QueryConsume::Names(others)) => {
            same_list(some.as_slice(), others.as_slice())
        }
        _ => false,
    }
}

impl Query {
    /// Whether two queries are the same but for the places of their parts.
    pub fn same(&self, other: &Query) -> bool
        ensures { IsTrue result ↔ Same self.now other.now }
    {
        same_list(self.columns.as_slice(), other.columns.as_slice())
            && same_time(&self.time, &other.time)
            && same_list(self.elements.as_slice(), other.elements.as_slice())
            && same_list(self.defines.as_slice(), other.defines.as_slice())
            && same_length(&self.length, &other.length)
            && same_opening(&self.opening, &other.opening)
            && self.select == other.select
            && same_consume(&self.consume, &other.consume)
    }
}
