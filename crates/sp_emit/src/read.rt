// A line read back.
ghost use Rattle.std.specs.Prelude.{◌≡◌, Some, IfOk, MatchOption};
ghost use Rattle.sp_plan.specs.declared.found.Match.{Match};
ghost use Rattle.sp_emit.specs.Matches.{IsLine};

use crate::bindings::bindings_at;
use crate::number::{labelled_at, short_labelled_at};
use crate::places::used;
use sp_plan::{Listed, Match, Memory, Plan};
use std::alloc::Global;

/// The one match of which these bytes are the line under this plan; None exactly where they are the line of
/// none. A line has each name of the plan that isn't negated once, in its order, with at least one event;
/// window and events are numbers of 32 bits, the match's own of 64, decimal and without leading zeros; lists rise
/// strictly; a dash stands where nothing is consumed, and one line feed at the end.
pub fn read_match(alloc: Global, plan: &Plan, line: &[u8]) -> Result<Option<Match>, Memory>
    ensures line { IfOk result
        (λ found. MatchOption found ((m : Match) → IsLine plan.now m line.now → ⊥)
        (λ m. IsLine plan.now m line.now)) }
    ensures only { IfOk result
        (λ found. (m : Match) → IsLine plan.now m line.now → found ≡ Some m) }
{
    let Some((window, rest)) = short_labelled_at(line, b"w=") else {
        return Ok(None);
    };
    let Some((number, rest)) = labelled_at(rest, b" m=") else {
        return Ok(None);
    };
    let Some((bound, rest)) = bindings_at(alloc, plan, rest)? else {
        return Ok(None);
    };
    let Some(used) = used(alloc, rest)? else {
        return Ok(None);
    };
    Ok(Some(Match {
        window,
        number,
        bound: Listed::of(bound),
        used,
    }))
}

/// The same of a text.
pub fn read_match_line(alloc: Global, plan: &Plan, line: &str) -> Result<Option<Match>, Memory>
    ensures line { IfOk result
        (λ found. MatchOption found ((m : Match) → IsLine plan.now m line.now → ⊥)
        (λ m. IsLine plan.now m line.now)) }
    ensures only { IfOk result
        (λ found. (m : Match) → IsLine plan.now m line.now → found ≡ Some m) }
{
    read_match(alloc, plan, line.as_bytes())
}
