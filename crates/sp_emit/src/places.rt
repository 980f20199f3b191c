// Numbers of events in front of a text, joined by commas.
ghost use Rattle.std.specs.Prelude.{◌≡◌, ◌∷◌, ◌≢◌, List, ℕ, IfOk, MatchOption};
ghost use Rattle.sp_emit.specs.Reading.{Answers, NumbersAt, PlacesAt, UsedIs};

use crate::front::behind;
use crate::number::short_number_at;
use sp_plan::{Memory, Places};
use std::alloc::Global;

/// The numbers in front, each of 32 bits, and the rest; None exactly where none are in front.
pub fn numbers_at<'a>(alloc: Global, text: &'a [u8]) -> Result<Option<(Vec<u32>, &'a [u8])>, Memory>
    ensures { IfOk result (Answers (NumbersAt text.now) (λ p. (p.0.items, p.1.now))) }
{
    let Some((first, mut rest)) = short_number_at(text) else {
        return Ok(None);
    };
    let mut numbers = Vec::new(alloc);
    numbers.push(first)?;
    'each: while let Some(more) = behind(rest, b",") {
        let Some((number, after)) = short_number_at(more) else {
            return Ok(None);
        };
        numbers.push(number)?;
        rest = after;
    }
    Ok(Some((numbers, rest)))
}

/// The numbers of events in front and the rest; None exactly where none are in front, or they don't rise.
pub(crate) fn places_at<'a>(
    alloc: Global,
    text: &'a [u8],
) -> Result<Option<(Places, &'a [u8])>, Memory>
    ensures { IfOk result (Answers (PlacesAt text.now) (λ p. (p.0, p.1.now))) }
{
    let Some((numbers, rest)) = numbers_at(alloc, text)? else {
        return Ok(None);
    };
    match Places::new(alloc, &numbers)? {
        Some(places) => Ok(Some((places, rest))),
        None => Ok(None),
    }
}

/// The consumed numbers, where the text is these, or a dash for none, and one line feed.
pub(crate) fn used(alloc: Global, text: &[u8]) -> Result<Option<Places>, Memory>
    ensures { IfOk result
        (λ used. MatchOption used ((ns : List ℕ) → UsedIs text.now ns → ⊥) (UsedIs text.now)) }
{
    if text == b"-\n".as_slice() {
        return Places::new(alloc, &[]);
    }
    let Some((places, rest)) = places_at(alloc, text)? else {
        return Ok(None);
    };
    if rest == b"\n".as_slice() {
        return Ok(Some(places));
    }
    Ok(None)
}
