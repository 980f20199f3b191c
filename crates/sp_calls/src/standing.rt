// Where a version stands in a tree: the path of edges down to it, and its children.
use crate::text::AnswerText;
use sp_group::Outcome;
use sp_tree::Tree;
use std::alloc::{AllocError, Global};

/// Appends the live children of a version, by rising ids.
pub(crate) fn push_children<V>(
    alloc: Global,
    tree: &Tree<V>,
    id: u64,
    out: &mut AnswerText,
) -> Result<(), AllocError> {
    let ids = tree.children(alloc, id)?;
    out.text(if ids.is_empty() { " -" } else { "" });
    let mut before = " ";
    for child in &ids {
        out.number(before, i128::from(*child));
        before = ",";
    }
    out.text("\n");
    Ok(())
}

/// Appends the edges on the way down to a version, each by its group and what it guesses.
pub(crate) fn push_path<V>(
    alloc: Global,
    tree: &Tree<V>,
    id: u64,
    out: &mut AnswerText,
) -> Result<(), AllocError> {
    let Some(edges) = tree.path(alloc, id)? else {
        return Ok(out.text(" none\n"));
    };
    out.text(if edges.is_empty() { " -" } else { "" });
    let mut before = " ";
    for (run, outcome) in &edges {
        out.number(before, i128::from(*run));
        out.text(match outcome {
            Outcome::Completed => ":completed",
            Outcome::Abandoned => ":abandoned",
        });
        before = ",";
    }
    out.text("\n");
    Ok(())
}
