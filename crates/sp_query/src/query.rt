// A query as its text has it.
use crate::Tree;
use sp_base::Text;
use sp_lex::{Span, Word};
use sqlite_items::Items;

/// A name and where it stands.
#[derive(Drop)]
pub struct Ident {
    pub text: Text,
    pub span: Span,
}

/// A column: `kind` is INT, DEC or TEXT, and `digits` what follows DEC, else 0.
#[derive(Drop)]
pub struct QueryColumn {
    pub name: Ident,
    pub kind: Word,
    pub digits: u64,
    pub span: Span,
}

/// An element of the pattern.
#[derive(Drop)]
pub enum QueryElement {
    One(Ident),
    /// One event or more; the span is that of the name and its mark.
    Plus(Ident, Span),
    /// Two names or more.
    Set(Items<Ident>),
    /// No event of this name in between; the span begins at the mark in front of it.
    Never(Ident, Span),
}

/// Which events open a window.
#[derive(Drop)]
pub enum QueryOpening {
    /// A number of EVENTS or of TIME; the span begins at the word EVERY.
    Every(u64, Word, Span),
    When(Tree),
}

/// Which names a match consumes.
#[derive(Drop)]
pub enum QueryConsume {
    All,
    None,
    Names(Items<Ident>),
}

/// A query, clause by clause.
#[derive(Drop)]
pub struct Query {
    pub columns: Items<QueryColumn>,
    pub time: Option<Ident>,
    pub elements: Items<QueryElement>,
    /// The names of DEFINE with their predicates; none without the clause.
    pub defines: Items<(Ident, Tree)>,
    /// A number of EVENTS or of TIME; the span begins at the number.
    pub length: (u64, Word, Span),
    pub opening: QueryOpening,
    /// FIRST, LAST or EACH.
    pub select: Word,
    pub consume: QueryConsume,
}
