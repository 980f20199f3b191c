ghost use Rattle.std.specs.Prelude.{◌≡◌, ◌++◌, map, IfOk, OnOk, string_bytes};
ghost use Rattle.std.specs.List.{All};
ghost use Rattle.sp_emit.specs.Matches.{Binds};
ghost use Rattle.sp_listing.specs.Listing.{HoldsNumbers, IsEntry, entry_lines, entry_text, head_line, seen};

use crate::WindowProof;
use sp_base::push_list;
use sp_emit::{match_line, push_match_line};
use sp_plan::{Memory, Plan};
use std::alloc::Global;
use std::fmt::Write;

// Room for the line of a window with few numbers.
const ROOM: usize = 96;

// Adds the line of a window.
fn push_head(out: &mut String, proof: &WindowProof) -> Result<(), Memory>
    ensures line { OnOk result
        (string_bytes out.new ≡ string_bytes out.old ++ head_line (seen proof.now)) }
    ensures held { OnOk result (HoldsNumbers (seen proof.now)) }
{
    let (window, first, last) = (proof.window, proof.first, proof.last);
    write!(out, "p w={window} from={first} to={last} skip=")?;
    push_list(out, proof.skipped.list())?;
    out.push_str(" used=")?;
    push_list(out, proof.used.list())?;
    out.push_str("\n")
}

/// The text of an entry: the line of its window, and those of its matches. Where each match binds the
/// names of the plan as a match of the plan does, `read_listing` gives the entry back.
pub fn proof_text(alloc: Global, plan: &Plan, proof: &WindowProof) -> Result<String, Memory>
    ensures text { IfOk result (λ text. string_bytes text ≡ entry_text plan.now (seen proof.now)) }
    ensures back { All (Binds plan.now) proof.now.matches.items
        → OnOk result (IsEntry plan.now (seen proof.now)) }
{
    let mut out = String::with_capacity(alloc, ROOM)?;
    push_head(&mut out, proof)?;
    for found in &proof.matches {
        push_match_line(&mut out, plan, found)?;
    }
    Ok(out)
}

/// The lines of an entry, each a text of its own: the one of its window, and then those of its matches. One after
/// another they are what `proof_text` gives.
pub fn proof_lines(alloc: Global, plan: &Plan, proof: &WindowProof) -> Result<Vec<String>, Memory>
    ensures { IfOk result
        (λ lines. map string_bytes lines.items ≡ entry_lines plan.now (seen proof.now)) }
{
    let mut head = String::with_capacity(alloc, ROOM)?;
    push_head(&mut head, proof)?;
    let mut lines = Vec::with_capacity(alloc, proof.matches.len() + 1)?;
    lines.push(head)?;
    for found in &proof.matches {
        lines.push(match_line(alloc, plan, found)?)?;
    }
    Ok(lines)
}
