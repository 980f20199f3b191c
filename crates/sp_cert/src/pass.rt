// The half of the check that takes the proofs in order: each against what those before it used.
ghost use Rattle.std.specs.Prelude.{◌≡◌, ◌≤◌, ◌+◌, ℕ, List, length, map, IfOk, MatchOption};
ghost use Rattle.std.specs.List.{All};
ghost use Rattle.sp_base.specs.Limits.{event_limit};
ghost use Rattle.sp_listing.specs.Listing.{Entry, seen};
ghost use Rattle.sp_cert.specs.Checking.{FollowTo, GoOn, IsFollowing, LiesWithin};
ghost use Rattle.sp_cert.specs.Flags.{AreFlags};
ghost use Rattle.sp_cert.specs.Proofs.{matches_of, used_of};

use crate::flags::{flagged, set_flags};
use sp_listing::WindowProof;
use sp_plan::{Match, Memory};
use std::alloc::Global;

// The number of the last match, where the numbers go on by one behind this one; None where they don't.
fn last_number(matches: &[Match], number: u64) -> Option<u64>
    ensures { MatchOption result (¬ GoOn number matches.now)
        (λ last. GoOn number matches.now × (last ≡ number + length matches.now)) }
{
    let mut last = number;
    for one in matches {
        if one.number == 0 || one.number - 1 != last {
            return None;
        }
        last = one.number;
    }
    Some(last)
}

// The number of the last match so far, where the proof is right behind those of so many windows, which
// consumed the flagged events and have so many matches; None where it isn't.
fn follows_on(
    alloc: Global,
    consumed: &[bool],
    windows: usize,
    matches: u64,
    proof: &WindowProof,
) -> Result<Option<u64>, Memory>
    requires lies { LiesWithin (length consumed.now) (seen proof.now) }
    requires few { length consumed.now ≤ event_limit }
    ensures { IfOk result (λ last. (before : List Entry) → AreFlags 1 (used_of before) consumed.now
        → windows ≡ length before → matches ≡ length (matches_of before)
        → IsFollowing before (seen proof.now) last) }
{
    if proof.window == 0 || (proof.window - 1) as usize != windows {
        return Ok(None);
    }
    let skipped = flagged(alloc, consumed, 1, proof.first, proof.last)?;
    if skipped.list() != proof.skipped.list() {
        return Ok(None);
    }
    Ok(last_number(&proof.matches, matches))
}

/// How many proofs from the first on are right behind those before them, of an input of so many events.
pub(crate) fn following(
    alloc: Global,
    events: usize,
    proofs: &[WindowProof],
) -> Result<usize, Memory>
    requires lie { All (λ proof. LiesWithin events (seen proof)) proofs.now }
    requires few { events ≤ event_limit }
    ensures { IfOk result (FollowTo (map seen proofs.now)) }
{
    let mut consumed = vec![in alloc; false; events]?;
    let mut matches = 0;
    for (place, proof) in proofs.iter().enumerate() {
        match follows_on(alloc, &consumed, place, matches, proof)? {
            Some(last) => matches = last,
            None => return Ok(place),
        }
        set_flags(&mut consumed, 1, proof.used.list());
    }
    Ok(proofs.len())
}
