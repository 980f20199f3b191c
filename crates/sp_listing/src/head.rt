// The line of a window read back.
ghost use Rattle.std.specs.Prelude.{IfOk, MatchOption};
ghost use Rattle.sp_emit.specs.Reading.{Answers};
ghost use Rattle.sp_listing.specs.Listing.{Entry, Begins, seen};
ghost use Rattle.sp_listing.specs.Reading.{ListAt};

use crate::WindowProof;
use sp_base::Numbers;
use sp_emit::{behind, numbers_at, short_labelled_at};
use sp_plan::Memory;
use std::alloc::Global;

// The list of numbers behind a label, and the rest; None exactly where none is there, or it doesn't rise.
fn list_at<'a>(
    alloc: Global,
    text: &'a [u8],
    label: &[u8],
) -> Result<Option<(Numbers, &'a [u8])>, Memory>
    ensures { IfOk result (Answers (ListAt label.now text.now) (λ p. (p.0.list, p.1.now))) }
{
    let Some(list) = behind(text, label) else {
        return Ok(None);
    };
    if let Some(rest) = behind(list, b"-") {
        return Ok(Some((Numbers::new(alloc), rest)));
    }
    let Some((numbers, rest)) = numbers_at(alloc, list)? else {
        return Ok(None);
    };
    match Numbers::from_list(alloc, &numbers)? {
        Some(numbers) => Ok(Some((numbers, rest))),
        None => Ok(None),
    }
}

/// The entry that a line begins, with no match so far; None exactly where it is the line of no window.
pub(crate) fn begun(alloc: Global, line: &[u8]) -> Result<Option<WindowProof>, Memory>
    ensures { IfOk result
        (λ proof. MatchOption proof ((e : Entry) → Begins line.now e → ⊥)
        (λ p. Begins line.now (seen p))) }
{
    let Some((window, rest)) = short_labelled_at(line, b"p w=") else {
        return Ok(None);
    };
    let Some((first, rest)) = short_labelled_at(rest, b" from=") else {
        return Ok(None);
    };
    let Some((last, rest)) = short_labelled_at(rest, b" to=") else {
        return Ok(None);
    };
    let Some((skipped, rest)) = list_at(alloc, rest, b" skip=")? else {
        return Ok(None);
    };
    let Some((used, rest)) = list_at(alloc, rest, b" used=")? else {
        return Ok(None);
    };
    if rest == b"\n".as_slice() {
        return Ok(Some(WindowProof {
            window,
            first,
            last,
            skipped,
            used,
            matches: Vec::new(alloc),
        }));
    }
    Ok(None)
}
