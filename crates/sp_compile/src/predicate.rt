// From predicates of a query to those of its plan.
ghost use Rattle.sp_compile.specs.Answers.{AreNamed, PredAnswer};
ghost use Rattle.sp_query.specs.declared.tree.Tree.{out-Tree};
ghost use Rattle.sp_query.specs.declared.tree.Node.TheVariants as n;
ghost use Rattle.std.specs.Prelude.{◌≡◌, ◌∷◌, [], true, Some, None, IfOk};
ghost use Rattle.sp_plan.specs.Bounds.{PredWithin};
ghost use Rattle.sp_plan.specs.Values.{holds};
ghost use Rattle.sp_compile.specs.Checks.{is_junction};
ghost use Rattle.sp_compile.specs.Parts.{BothComparable, MadePredAnswer, JointAnswer, NegationAnswer, joined};

use crate::CompileFault;
use crate::boxed::{boxed, boxed_pair};
use crate::comparison::{Spans, comparison};
use crate::expression::{both, expression};
use crate::scope::Scope;
use crate::spine::spine;
use sp_plan::{Compare, Pred, Text};
use sp_query::{Node, Tree};
use std::alloc::Global;

// The predicate of a comparison, or its first fault.
fn test(
    alloc: Global,
    scope: &Scope,
    texts: &[Text],
    tree: &Tree,
    by: Compare,
    left: &Tree,
    right: &Tree,
) -> Result<Pred, CompileFault>
    requires named { AreNamed scope.now.columns scope.now.names }
    requires node { (out-Tree tree.now).node ≡ n.Test by }
    requires parts { (out-Tree tree.now).parts ≡ left.now ∷ right.now ∷ [] }
    ensures { PredAnswer scope.now texts.now tree.now result }
{
    let spans = Spans {
        whole: tree.span,
        left: left.span,
        right: right.span,
    };
    let left = expression(alloc, scope, texts, left);
    let right = expression(alloc, scope, texts, right);
    let (left, right) = both(left, right)?;
    comparison(alloc, by, spans, left, right)
}

// Both of two predicates, or either.
fn junction(alloc: Global, node: &Node, left: Pred, right: Pred) -> Result<Pred, CompileFault>
    requires node { is_junction node.now ≡ true }
    requires left { PredWithin left }
    requires right { PredWithin right }
    ensures { MadePredAnswer None
        (λ event bound. Some (joined node.now (holds left event bound) (holds right event bound)))
        (BothComparable left right) result }
{
    let (left, right) = boxed_pair(alloc, left, right)?;
    match node {
        Node::Or => Ok(Pred::Or(left, right)),
        _ => Ok(Pred::And(left, right)),
    }
}

// Both of two predicates, or either, or the fault of the first side that has one.
fn joint(
    alloc: Global,
    node: &Node,
    left: Result<Pred, CompileFault>,
    right: Result<Pred, CompileFault>,
) -> Result<Pred, CompileFault>
    requires node { is_junction node.now ≡ true }
    requires left { IfOk left PredWithin }
    requires right { IfOk right PredWithin }
    ensures { JointAnswer node.now left right result }
{
    let (left, right) = both(left, right)?;
    junction(alloc, node, left, right)
}

// Not a predicate, or the predicate's fault.
fn negation(alloc: Global, inner: Result<Pred, CompileFault>) -> Result<Pred, CompileFault>
    requires { IfOk inner PredWithin }
    ensures { NegationAnswer inner result }
{
    Ok(Pred::Not(boxed(alloc, inner?)?))
}

// The predicate of a tree, or its first fault. The texts of the tree are among these. The left
// operands are gone through in a loop, since there may be thousands of them, one below the other.
pub(crate) fn predicate(
    alloc: Global,
    scope: &Scope,
    texts: &[Text],
    tree: &Tree,
) -> Result<Pred, CompileFault>
    requires { AreNamed scope.now.columns scope.now.names }
    ensures { PredAnswer scope.now texts.now tree.now result }
{
    let (mut nodes, first) = spine(alloc, tree)?;
    let mut made = match (&first.node, first.parts.as_slice()) {
        (Node::Test(by), [left, right]) => test(alloc, scope, texts, first, *by, left, right),
        (Node::Not, [part]) => negation(alloc, predicate(alloc, scope, texts, part)),
        // No text has such a tree.
        _ => Err(CompileFault::Memory),
    };
    while let Some(node) = nodes.pop() {
        let (Node::And | Node::Or, [_, right]) = (&node.node, node.parts.as_slice()) else {
            // No text has such a tree.
            return Err(CompileFault::Memory);
        };
        let right = predicate(alloc, scope, texts, right);
        made = joint(alloc, &node.node, made, right);
    }
    made
}
