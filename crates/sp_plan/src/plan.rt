use crate::{Listed, Text};

/// What a column holds.
#[derive(Clone, Copy, Drop, PartialEq, Eq)]
pub enum Kind {
    /// Whole numbers.
    Int,
    /// Numbers with 1 to 6 decimals, kept as whole units of the last one.
    Dec(u8),
    Text,
}

/// A column that a query names.
#[derive(Drop, PartialEq)]
pub struct Column {
    pub name: Text,
    pub kind: Kind,
}

/// The columns that a query names, at most 64.
#[derive(Drop)]
pub struct Schema {
    pub columns: Listed<Column>,
    /// The column of the time, by its place from 0.
    pub time: Option<u16>,
}

/// An expression over the event at hand and the events bound before it. Numbers are in units of the
/// expression's scale; raising by `by` multiplies by ten so often.
#[derive(Drop)]
pub enum Expr {
    Literal(i64),
    /// A text of the query, by its place in `Plan::texts`.
    Word(u32),
    /// A column of the event at hand, by its place in the schema from 0.
    Column(u16),
    /// A column of the last event that is bound to an earlier name.
    Earlier { name: u8, column: u16 },
    Raise { by: u8, inner: Box<Expr> },
    Minus(Box<Expr>),
    Add(Box<Expr>, Box<Expr>),
    Sub(Box<Expr>, Box<Expr>),
    Mul(Box<Expr>, Box<Expr>),
}

/// How two sides are compared. Texts are equal or not, and in no order.
#[derive(Clone, Copy, Drop, PartialEq, Eq)]
pub enum Compare {
    Equal,
    Unequal,
    Less,
    AtMost,
    Greater,
    AtLeast,
}

/// A predicate over the event at hand and the events bound before it.
#[derive(Drop)]
pub enum Pred {
    Always,
    /// Both sides have one scale, or both are texts.
    Test {
        by: Compare,
        left: Expr,
        right: Expr,
    },
    And(Box<Pred>, Box<Pred>),
    Or(Box<Pred>, Box<Pred>),
    Not(Box<Pred>),
}

/// An element of the pattern. Names are numbered from 0 in the order of the pattern.
#[derive(Clone, Copy, Drop, PartialEq, Eq)]
pub enum Element {
    /// One event.
    One(u8),
    /// One event or more.
    Plus(u8),
    /// One event for each of `count` names from `first` on, in any order.
    Set { first: u8, count: u8 },
    /// No event: the name is negated. Between the elements round it a run is abandoned by an event that it
    /// doesn't take and that fulfils the name's predicate.
    Never(u8),
}

/// A name of the pattern.
#[derive(Drop)]
pub struct Name {
    pub text: Text,
    /// What an event fulfils that is bound to the name, or that is held against a run where the name is negated.
    pub pred: Pred,
    /// Whether a match consumes the events of this name; a negated name has none.
    pub consumed: bool,
}

/// Which partial matches there are in a window.
#[derive(Clone, Copy, Drop, PartialEq, Eq)]
pub enum Select {
    /// One at a time, from the first event on that begins one.
    First,
    /// One at a time; an event that it doesn't take and that begins one replaces it.
    Last,
    /// One from each event that begins one, at most 64 at a time.
    Each,
}

/// How long a window is.
#[derive(Clone, Copy, Drop, PartialEq, Eq)]
pub enum Length {
    /// So many events from the first on: 1 to 65,536.
    Events(u32),
    /// The events whose time is below that of the first plus this: 1 to 10^15.
    Time(i64),
}

/// Which events open a window.
#[derive(Drop)]
pub enum Opening {
    /// The first, and each one that is so many events later: 1 to 1,048,576.
    EveryEvents(u32),
    /// The first one in each span of time that begins at a multiple of this, 1 to 10^15, and is as
    /// long as the window.
    EveryTime(i64),
    /// Each one that fulfils the predicate.
    When(Pred),
}

/// A query as it is run.
#[derive(Drop)]
pub struct Plan {
    pub schema: Schema,
    /// The names of the pattern, 1 to 32, in its order.
    pub names: Listed<Name>,
    pub elements: Listed<Element>,
    pub select: Select,
    pub length: Length,
    pub opening: Opening,
    /// Each text of the query once, in order of appearance.
    pub texts: Listed<Text>,
}
