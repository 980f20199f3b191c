// The left operands of a tree. A text may have thousands of them, one below the other.
ghost use Rattle.std.specs.Prelude.{◌≡◌, IfOk};
ghost use Rattle.sp_compile.specs.Spines.{Spine};

use sp_query::{Node, Tree};
use std::alloc::{AllocError, Global};

// The operators from the root of a tree down its left operands, and what stands below them.
pub(crate) fn spine<'a>(
    alloc: Global,
    tree: &'a Tree,
) -> Result<(Vec<&'a Tree>, &'a Tree), AllocError>
    ensures { IfOk result (λ p. Spine tree.now p.0.items p.1.now) }
{
    let mut nodes = Vec::new(alloc);
    let mut here = tree;
    while let (Node::Add | Node::Sub | Node::Mul | Node::And | Node::Or, [left, _]) = (
        &here.node,
        here.parts.as_slice(),
    ) {
        nodes.push(here)?;
        here = left;
    }
    Ok((nodes, here))
}
