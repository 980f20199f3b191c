// Flags of numbers, one for each number from some first one on.
ghost use Rattle.std.specs.Prelude.{◌≡◌, ◌≤◌, ◌<◌, ◌+◌, ◌++◌, ℕ, List, length, IfOk};
ghost use Rattle.sp_base.specs.Limits.{event_limit};
ghost use Rattle.sp_cert.specs.Flags.{AreFlags};
ghost use Rattle.sp_cert.specs.Proofs.{those_within, used_by};

use sp_base::Numbers;
use sp_plan::{Match, Memory};
use std::alloc::Global;

/// Sets the flags of these numbers. A number that has none is passed over.
pub(crate) fn set_flags(flags: &mut [bool], first: u32, numbers: &[u32])
    ensures { (before : List ℕ) → AreFlags first before flags.old
        → AreFlags first (before ++ numbers.now) flags.new }
{
    for number in numbers {
        if *number >= first {
            let place = (*number - first) as usize;
            if place < flags.len() {
                flags[place] = true;
            }
        }
    }
}

/// The numbers from one to another whose flags are set, where the flags begin with that of `base`.
pub(crate) fn flagged(
    alloc: Global,
    flags: &[bool],
    base: u32,
    first: u32,
    last: u32,
) -> Result<Numbers, Memory>
    requires low { base ≤ first }
    requires some { first ≤ last }
    requires within { last < base + length flags.now }
    requires few { last ≤ event_limit }
    ensures { IfOk result (λ numbers. (members : List ℕ) → AreFlags base members flags.now
        → numbers.list ≡ those_within first last members) }
{
    let mut numbers = Numbers::new(alloc);
    for number in first..last + 1 {
        if flags[(number - base) as usize] {
            numbers.insert(number)?;
        }
    }
    Ok(numbers)
}

/// The numbers from one to another that the matches use.
pub(crate) fn used_within(
    alloc: Global,
    matches: &[Match],
    first: u32,
    last: u32,
) -> Result<Numbers, Memory>
    requires some { first ≤ last }
    requires few { last ≤ event_limit }
    ensures { IfOk result (λ used. used.list ≡ those_within first last (used_by matches.now)) }
{
    let mut flags = vec![in alloc; false; (last - first) as usize + 1]?;
    for one in matches {
        set_flags(&mut flags, first, one.used.list());
    }
    flagged(alloc, &flags, first, first, last)
}
