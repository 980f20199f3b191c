// Expressions and predicates as a query's text has them.
use sp_base::Text;
use sp_lex::Span;
use sp_plan::Compare;
use sqlite_items::Items;

/// What a tree is at its root. An operator's operands are the parts of its tree, in their order.
#[derive(Drop)]
pub enum Node {
    /// A whole number, at most 10^15.
    Whole(u64),
    /// A number with so many decimals, 1 to 6, in units of the last one.
    Decimal { units: u64, scale: u8 },
    Literal(Text),
    /// A column of the event at hand.
    Own(Text),
    /// A name of the pattern, and a column of the last event that is bound to it.
    Earlier(Text, Text),
    Minus,
    Add,
    Sub,
    Mul,
    Test(Compare),
    And,
    Or,
    Not,
}

/// An expression or a predicate, and where it stands: from the first of its tokens to the last, not
/// counting brackets round the whole of it.
#[derive(Drop)]
pub struct Tree {
    pub node: Node,
    pub parts: Items<Tree>,
    pub span: Span,
}
