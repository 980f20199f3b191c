// The texts of a query's predicates.
ghost use Rattle.std.specs.Prelude.{◌≡◌, [], ◌∷◌, IfOk, OnOk};
ghost use Rattle.std.specs.List.{list_any};
ghost use Rattle.std.specs.Str.{bytes_eq};
ghost use Rattle.sp_plan.specs.Texts.{with_text};
ghost use Rattle.sp_compile.specs.Gathers.{Gathers};
ghost use Rattle.sp_compile.specs.Stands.{all_trees, opening_trees};

use crate::spine::spine;
use sp_plan::{Memory, Text};
use sp_query::{Node, Query, QueryOpening, Tree};
use std::alloc::{AllocError, Global};

// Whether a text is among those so far.
pub(crate) fn is_known(texts: &[Text], text: &Text) -> bool
    ensures { result ≡ list_any (bytes_eq text.now) texts.now }
{
    texts.iter().any(|other| text.as_str() == other.as_str())
}

// Puts a text behind those so far, if it is new.
fn add_text(alloc: Global, texts: &mut Vec<Text>, text: &Text) -> Result<(), Memory>
    ensures { OnOk result (texts.new.items ≡ with_text texts.old.items text.now) }
{
    if !is_known(texts, text) {
        texts.push(text.copy(alloc)?)?;
    }
    Ok(())
}

// Puts the new texts of a tree behind those so far, from the left. The left operands are gone through
// in a loop, since there may be thousands of them, one below the other.
fn add_tree(alloc: Global, texts: &mut Vec<Text>, tree: &Tree) -> Result<(), Memory>
    ensures { OnOk result (Gathers (tree.now ∷ []) texts.old.items texts.new.items) }
{
    let (mut nodes, first) = spine(alloc, tree)?;
    if let Node::Literal(text) = &first.node {
        add_text(alloc, texts, text)?;
    }
    match first.parts.as_slice() {
        [] => {}
        [part] => add_tree(alloc, texts, part)?,
        [left, right] => {
            add_tree(alloc, texts, left)?;
            add_tree(alloc, texts, right)?;
        }
        // No text has such a tree.
        _ => return Err(AllocError),
    }
    while let Some(node) = nodes.pop() {
        let (Node::Add | Node::Sub | Node::Mul | Node::And | Node::Or, [_, right]) = (
            &node.node,
            node.parts.as_slice(),
        ) else {
            // No spine has such a node.
            return Err(AllocError);
        };
        add_tree(alloc, texts, right)?;
    }
    Ok(())
}

// Puts the new texts of an opening behind those so far.
fn add_opening(alloc: Global, texts: &mut Vec<Text>, opening: &QueryOpening) -> Result<(), Memory>
    ensures { OnOk result (Gathers (opening_trees opening.now) texts.old.items texts.new.items) }
{
    if let QueryOpening::When(tree) = opening {
        add_tree(alloc, texts, tree)?;
    }
    Ok(())
}

// The texts of the predicates of a query, each once, in order of appearance.
pub(crate) fn texts(alloc: Global, query: &Query) -> Result<Vec<Text>, Memory>
    ensures { IfOk result (λ texts. Gathers (all_trees query.now) [] texts.items) }
{
    let mut texts = Vec::new(alloc);
    for define in query.defines.as_slice() {
        add_tree(alloc, &mut texts, &define.1)?;
    }
    add_opening(alloc, &mut texts, &query.opening)?;
    Ok(texts)
}
