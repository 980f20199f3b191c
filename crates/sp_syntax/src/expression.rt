// Expressions as they are written, with brackets where a root binds too loosely.
ghost use Rattle.std.specs.Prelude.{ℕ, ◌≤◌, OnOk, string_bytes};
ghost use Rattle.sp_query.specs.Grammar as g;
ghost use Rattle.sp_query.specs.Same.{SameTree};
ghost use Rattle.sp_syntax.specs.Printing.{Adds, Prints, Expression, ExpressionRoot};

use crate::parts::{one, rank, two};
use crate::tokens::{literal, scaled, token, whole};
use sp_query::{Node, Tree};
use std::alloc::AllocError;

// whole | decimal | literal | name [ "." name ]
fn operand(out: &mut String, tree: &Tree) -> Result<(), AllocError>
    ensures { OnOk result
        (Adds (string_bytes out.old) (string_bytes out.new) (Prints g.Operand SameTree tree.now)) }
{
    match &tree.node {
        Node::Whole(number) => whole(out, *number),
        Node::Decimal { units, scale } => {
            scaled(out, *units, *scale)?;
            out.push_str(" ")?;
            Ok(())
        }
        Node::Literal(text) => literal(out, text.as_str()),
        Node::Own(name) => token(out, name.as_str()),
        Node::Earlier(name, column) => {
            token(out, name.as_str())?;
            token(out, ".")?;
            token(out, column.as_str())
        }
        _ => Ok(()),
    }
}

// An expression, in brackets where its root binds less firmly than what it is a part of.
#[cycle(expressions)]
pub(crate) fn expression(out: &mut String, tree: &Tree, least: u8) -> Result<(), AllocError>
    requires { least ≤ 2 }
    ensures { OnOk result
        (Adds (string_bytes out.old) (string_bytes out.new)
        (λ x. (room : ℕ) → Prints (Expression least room) SameTree tree.now x)) }
{
    if rank(&tree.node) >= least {
        return expression_root(out, tree);
    }
    token(out, "(")?;
    expression_root(out, tree)?;
    token(out, ")")
}

// The root of an expression with its parts.
#[cycle(expressions)]
fn expression_root(out: &mut String, tree: &Tree) -> Result<(), AllocError>
    ensures { OnOk result
        (Adds (string_bytes out.old) (string_bytes out.new)
        (λ x. (room : ℕ) → Prints (ExpressionRoot room) SameTree tree.now x)) }
{
    match &tree.node {
        Node::Add => {
            let Some((left, right)) = two(tree.parts.as_slice()) else {
                return Ok(());
            };
            expression(out, left, 0)?;
            token(out, "+")?;
            expression(out, right, 1)
        }
        Node::Sub => {
            let Some((left, right)) = two(tree.parts.as_slice()) else {
                return Ok(());
            };
            expression(out, left, 0)?;
            token(out, "-")?;
            expression(out, right, 1)
        }
        Node::Mul => {
            let Some((left, right)) = two(tree.parts.as_slice()) else {
                return Ok(());
            };
            expression(out, left, 1)?;
            token(out, "*")?;
            expression(out, right, 2)
        }
        Node::Minus => {
            let Some(inner) = one(tree.parts.as_slice()) else {
                return Ok(());
            };
            token(out, "-")?;
            expression(out, inner, 2)
        }
        _ => operand(out, tree),
    }
}
