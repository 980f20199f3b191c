// Predicates as they are written, with brackets where a root binds too loosely.
ghost use Rattle.std.specs.Prelude.{◌≡◌, Some, ℕ, ◌≤◌, OnOk, string_bytes};
ghost use Rattle.sp_lex.specs.Spelling as s;
ghost use Rattle.sp_query.specs.Grammar as g;
ghost use Rattle.sp_query.specs.Same.{SameTree};
ghost use Rattle.sp_syntax.specs.Printing.{Adds, Prints, compare_mark, Predicate, PredicateRoot};

use crate::expression::expression;
use crate::parts::{one, rank, two};
use crate::tokens::token;
use sp_plan::Compare;
use sp_query::{Node, Tree};
use std::alloc::AllocError;

// "=" | "<>" | "<" | "<=" | ">" | ">="
fn comparison(compare: Compare) -> &'static str
    ensures { Some result.now ≡ s.mark (compare_mark compare) }
{
    match compare {
        Compare::Equal => "=",
        Compare::Unequal => "<>",
        Compare::Less => "<",
        Compare::AtMost => "<=",
        Compare::Greater => ">",
        Compare::AtLeast => ">=",
    }
}

// sum compare sum
fn test(out: &mut String, tree: &Tree) -> Result<(), AllocError>
    ensures { OnOk result
        (Adds (string_bytes out.old) (string_bytes out.new)
        (λ x. (room : ℕ) → Prints (g.TestOf (g.Sum room)) SameTree tree.now x)) }
{
    let Node::Test(compare) = &tree.node else {
        return Ok(());
    };
    let Some((left, right)) = two(tree.parts.as_slice()) else {
        return Ok(());
    };
    expression(out, left, 0)?;
    token(out, comparison(*compare))?;
    expression(out, right, 0)
}

// A predicate, in brackets where its root binds less firmly than what it is a part of.
#[cycle(predicates)]
pub(crate) fn predicate(out: &mut String, tree: &Tree, least: u8) -> Result<(), AllocError>
    requires { least ≤ 2 }
    ensures { OnOk result
        (Adds (string_bytes out.old) (string_bytes out.new)
        (λ x. (room : ℕ) → Prints (Predicate least room) SameTree tree.now x)) }
{
    if rank(&tree.node) >= least {
        return predicate_root(out, tree);
    }
    token(out, "[")?;
    predicate_root(out, tree)?;
    token(out, "]")
}

// The root of a predicate with its parts.
#[cycle(predicates)]
fn predicate_root(out: &mut String, tree: &Tree) -> Result<(), AllocError>
    ensures { OnOk result
        (Adds (string_bytes out.old) (string_bytes out.new)
        (λ x. (room : ℕ) → Prints (PredicateRoot room) SameTree tree.now x)) }
{
    match &tree.node {
        Node::Or => {
            let Some((left, right)) = two(tree.parts.as_slice()) else {
                return Ok(());
            };
            predicate(out, left, 0)?;
            token(out, "OR")?;
            predicate(out, right, 1)
        }
        Node::And => {
            let Some((left, right)) = two(tree.parts.as_slice()) else {
                return Ok(());
            };
            predicate(out, left, 1)?;
            token(out, "AND")?;
            predicate(out, right, 2)
        }
        Node::Not => {
            let Some(inner) = one(tree.parts.as_slice()) else {
                return Ok(());
            };
            token(out, "NOT")?;
            predicate(out, inner, 2)
        }
        _ => test(out, tree),
    }
}
