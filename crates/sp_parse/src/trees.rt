// Trees of a node, its parts and a place.
ghost use Rattle.std.specs.Prelude.{◌≡◌, ◌<◌, [], ◌∷◌, length, IfOk};
ghost use Rattle.sp_query.specs.Trees.{tree_at};
ghost use Rattle.sp_parse.specs.Reads.{Joins};

use crate::stop::Stop;
use crate::tokens::span_of;
use sp_query::{Node, Span, Token, Tree};
use sqlite_items::Items;
use std::alloc::{AllocError, Global};

// A tree without parts.
pub(crate) fn leaf(alloc: Global, node: Node, span: Span) -> Tree
    ensures { result ≡ tree_at node [] span }
{
    Tree {
        node,
        parts: Items::new(alloc),
        span,
    }
}

// A tree of one part.
pub(crate) fn unary(alloc: Global, node: Node, part: Tree, span: Span) -> Result<Tree, AllocError>
    ensures { IfOk result (λ tree. tree ≡ tree_at node (part ∷ []) span) }
{
    let mut parts = Items::new(alloc);
    parts.push(part)?;
    Ok(Tree { node, parts, span })
}

// Two parts of a tree.
fn two(alloc: Global, first: Tree, second: Tree) -> Result<Items<Tree>, AllocError>
    ensures { IfOk result (λ parts. parts ≡ first ∷ second ∷ []) }
{
    let mut parts = Items::new(alloc);
    parts.push(first)?;
    parts.push(second)?;
    Ok(parts)
}

// The tree of an operand, an operator and the operand that was read behind it, and the rest. The tokens are
// those from the first operand on.
pub(crate) fn joined<'a>(
    alloc: Global,
    tokens: &[Token],
    left: Tree,
    node: Node,
    right: Result<(Tree, &'a [Token]), Stop>,
) -> Result<(Tree, &'a [Token]), Stop>
    requires { IfOk right (λ p. length p.1.now < length tokens.now) }
    ensures { Joins tokens.now left node right.entry result }
{
    let (right, rest) = right?;
    let parts = two(alloc, left, right)?;
    let span = span_of(tokens, rest);
    Ok((Tree { node, parts, span }, rest))
}
