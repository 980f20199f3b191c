// From expressions of a query to those of its plan, each with what it is.
ghost use Rattle.std.specs.Prelude.{◌≡◌, true, IfOk};
ghost use Rattle.sp_query.specs.declared.tree.Tree.{out-Tree};
ghost use Rattle.sp_compile.specs.Sorts.{is_arithmetic};
ghost use Rattle.sp_compile.specs.Answers.{AreNamed, ExprAnswer};
ghost use Rattle.sp_compile.specs.Parts.{IsSound, BothAnswer, NegativeAnswer, OperationAnswer};

use crate::arithmetic::{arithmetic, minus};
use crate::leaf::{earlier, literal, number, own};
use crate::scope::Scope;
use crate::spine::spine;
use crate::{CompileFault, Sort};
use sp_plan::{Expr, Text};
use sp_query::{Node, Span, Tree};
use std::alloc::Global;

// What both sides of an operator are, or the fault of the first that has one. Want of memory on
// either side comes before any fault, since it leaves open what that side is.
pub(crate) fn both<T: Drop>(
    left: Result<T, CompileFault>,
    right: Result<T, CompileFault>,
) -> Result<(T, T), CompileFault>
    ensures { BothAnswer left right result }
{
    match (left, right) {
        (Err(CompileFault::Memory), _) | (_, Err(CompileFault::Memory)) => {
            Err(CompileFault::Memory)
        }
        (Err(fault), _) | (_, Err(fault)) => Err(fault),
        (Ok(left), Ok(right)) => Ok((left, right)),
    }
}

// A number, a text or a column.
fn operand(scope: &Scope, texts: &[Text], tree: &Tree) -> Result<(Expr, Sort), CompileFault>
    requires { AreNamed scope.now.columns scope.now.names }
    ensures { ExprAnswer scope.now texts.now tree.now result }
{
    match &tree.node {
        Node::Whole(units) => number(*units, 0),
        Node::Decimal { units, scale } => number(*units, *scale),
        Node::Literal(text) => literal(scope, texts, tree.span, text),
        Node::Own(text) => own(scope, tree.span, text),
        Node::Earlier(name, text) => earlier(scope, tree.span, name, text),
        // No text has such a tree.
        _ => Err(CompileFault::Memory),
    }
}

// Minus an operand, or the operand's fault.
fn negative(
    alloc: Global,
    span: Span,
    inner: Result<(Expr, Sort), CompileFault>,
) -> Result<(Expr, Sort), CompileFault>
    requires { IfOk inner IsSound }
    ensures { NegativeAnswer span inner result }
{
    minus(alloc, span, inner?)
}

// What an operator makes of both sides, or the fault of the first side that has one.
fn operation(
    alloc: Global,
    node: &Tree,
    left: Result<(Expr, Sort), CompileFault>,
    right: Result<(Expr, Sort), CompileFault>,
) -> Result<(Expr, Sort), CompileFault>
    requires node { is_arithmetic (out-Tree node.now).node ≡ true }
    requires left { IfOk left IsSound }
    requires right { IfOk right IsSound }
    ensures { OperationAnswer node.now left right result }
{
    let (left, right) = both(left, right)?;
    arithmetic(alloc, &node.node, node.span, left, right)
}

/// The expression of a tree with what it is, or its first fault. The left operands are gone through
/// in a loop, since there may be thousands of them, one below the other.
pub fn expression(
    alloc: Global,
    scope: &Scope,
    texts: &[Text],
    tree: &Tree,
) -> Result<(Expr, Sort), CompileFault>
    requires { AreNamed scope.now.columns scope.now.names }
    ensures { ExprAnswer scope.now texts.now tree.now result }
{
    let (mut nodes, first) = spine(alloc, tree)?;
    let mut made = match (&first.node, first.parts.as_slice()) {
        (Node::Minus, [part]) => negative(alloc, first.span, expression(alloc, scope, texts, part)),
        _ => operand(scope, texts, first),
    };
    while let Some(node) = nodes.pop() {
        let (Node::Add | Node::Sub | Node::Mul, [_, right]) = (&node.node, node.parts.as_slice())
        else {
            // No text has such a tree.
            return Err(CompileFault::Memory);
        };
        let right = expression(alloc, scope, texts, right);
        made = operation(alloc, node, made, right);
    }
    made
}
