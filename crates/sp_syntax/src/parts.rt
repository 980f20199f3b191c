// What the printer asks of a tree: how firmly its root binds, and its parts.
ghost use Rattle.std.specs.Prelude.{◌≡◌, ◌≢◌, MatchOption, ◌∷◌, []};
ghost use Rattle.sp_query.specs.declared.tree.Tree.{Tree};
ghost use Rattle.sp_syntax.specs.Printing.{rank};

use sp_query::{Node, Tree};

// How firmly a root binds its parts.
pub(crate) fn rank(node: &Node) -> u8
    ensures { result ≡ rank node.now }
{
    match node {
        Node::Add | Node::Sub | Node::Or => 0,
        Node::Mul | Node::And => 1,
        _ => 2,
    }
}

// The two parts of an operator.
pub(crate) fn two(parts: &[Tree]) -> Option<(&Tree, &Tree)>
    ensures { MatchOption result ((a b : Tree) → parts.now ≢ a ∷ b ∷ [])
        (λ p. parts.now ≡ p.0.now ∷ p.1.now ∷ []) }
{
    match parts {
        [left, right] => Some((left, right)),
        _ => None,
    }
}

// The part of a sign.
pub(crate) fn one(parts: &[Tree]) -> Option<&Tree>
    ensures { MatchOption result ((a : Tree) → parts.now ≢ a ∷ []) (λ p. parts.now ≡ p.now ∷ []) }
{
    match parts {
        [inner] => Some(inner),
        _ => None,
    }
}
