ghost use Rattle.std.specs.Prelude.{◌≡◌, ◌<◌, ◌^◌, List, length, map, IfOk, IfErr, OnOk};
ghost use Rattle.sp_listing.specs.Listing.{Entry, IsFault, IsListing, listing_text, seen};
ghost use Rattle.sp_listing.specs.Reading.{Adds, IsLineFault};

use crate::head::begun;
use crate::line::first_line;
use crate::{ListFault, WindowProof};
use sp_emit::read_match;
use sp_plan::Plan;
use std::alloc::Global;

// Takes in a line of this number, behind those of these entries.
fn take_line(
    alloc: Global,
    plan: &Plan,
    line: &[u8],
    number: u32,
    proofs: &mut Vec<WindowProof>,
) -> Result<(), ListFault>
    ensures taken { OnOk result
        (Adds plan.now line.now (map seen proofs.old.items) (map seen proofs.new.items)) }
    ensures fault { IfErr result
        (IsLineFault plan.now (map seen proofs.old.items) line.now number) }
{
    if let Some(proof) = begun(alloc, line)? {
        proofs.push(proof)?;
        return Ok(());
    }
    let Some(proof) = proofs.last_mut() else {
        return Err(ListFault::BadLine { line: number });
    };
    let Some(found) = read_match(alloc, plan, line)? else {
        return Err(ListFault::BadLine { line: number });
    };
    proof.matches.push(found)?;
    Ok(())
}

/// The entries whose texts, as `proof_text` writes them, are one after another the whole text. A line is either that
/// of a window, `p w=W from=F to=L skip=LIST used=LIST`, or that of a match of the plan behind one; numbers of windows
/// and events are of 32 bits, decimal and without leading zeros, 0 among them; lists rise strictly, a dash stands
/// where one is empty, and each line ends in a line feed. `BadLine` comes exactly where a line is neither, with the
/// first such line: so are an empty line, one without its line feed, and bytes that are no UTF-8. The text has fewer
/// than 2^32 bytes, so that each line has a number.
pub fn read_listing(alloc: Global, plan: &Plan, text: &[u8]) -> Result<Vec<WindowProof>, ListFault>
    requires { length text.now < 2 ^ 32 }
    ensures text { IfOk result
        (λ proofs. text.now ≡ listing_text plan.now (map seen proofs.items)) }
    ensures listing { IfOk result
        (λ proofs. IsListing plan.now text.now (map seen proofs.items)) }
    ensures only { IfOk result (λ proofs. (others : List Entry)
        → IsListing plan.now text.now others → others ≡ map seen proofs.items) }
    ensures fault { IfErr result (IsFault plan.now text.now) }
{
    let mut proofs = Vec::new(alloc);
    let mut rest = text;
    let mut number = 0;
    'lines: while let Some((line, behind)) = first_line(rest) {
        number += 1;
        take_line(alloc, plan, line, number, &mut proofs)?;
        rest = behind;
    }
    Ok(proofs)
}
