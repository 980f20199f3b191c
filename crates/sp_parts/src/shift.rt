// Matches of a part as matches of the whole input.
ghost use Rattle.std.specs.Prelude.{◌≡◌, ◌<◌, ◌≤◌, ◌+◌, ◌-◌, ◌^◌, map, IfOk};
ghost use Rattle.std.specs.List.{All};
ghost use Rattle.std.specs.List.Sorted.{IsStrictlyIncreasing};
ghost use Rattle.sp_parts.specs.Seen.{seen};
ghost use Rattle.sp_parts.specs.Shifted as spec;
ghost use Rattle.sp_parts.specs.Moving.{MoveOn, moved_by};

use crate::part::Part;
use sp_base::Listed;
use sp_plan::{Match, Memory, Places};
use std::alloc::Global;

// These numbers, each moved on by so many.
fn moved(alloc: Global, numbers: &Places, by: u32) -> Result<Places, Memory>
    requires { MoveOn by numbers.now }
    ensures { IfOk result (λ places. places ≡ moved_by by numbers.now) }
{
    let mut list = Vec::with_capacity(alloc, numbers.list().len())?;
    for number in numbers.list() {
        list.push(*number + by)?;
    }
    match Places::new(alloc, &list)? {
        Some(places) => Ok(places),
        None => unreachable!(),
    }
}

/// A match of a part as one of the whole input: its event numbers are moved on by those in front of the
/// part's first event, its window by the windows before the part's, and its number by so many matches.
/// Each sum fits its type. Fails for want of memory alone.
pub fn shifted(alloc: Global, found: &Match, part: &Part, matches: u64) -> Result<Match, Memory>
    requires first { 0 < part.now.first }
    requires window { found.now.window + part.now.windows < 2 ^ 32 }
    requires number { found.now.number + matches < 2 ^ 64 }
    requires used { MoveOn (part.now.first - 1) found.now.used }
    requires bound { All (λ pair. MoveOn (part.now.first - 1) pair.1) found.now.bound }
    ensures { IfOk result (λ one. one ≡ spec.shifted (seen part.now) matches found.now) }
{
    let by = part.first - 1;
    let mut bound = Vec::with_capacity(alloc, found.bound.as_slice().len())?;
    for (name, numbers) in found.bound.as_slice() {
        bound.push((*name, moved(alloc, numbers, by)?))?;
    }
    Ok(Match {
        window: found.window + part.windows,
        number: found.number + matches,
        bound: Listed::of(bound),
        used: moved(alloc, &found.used, by)?,
    })
}
