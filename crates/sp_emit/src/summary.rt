ghost use Rattle.std.specs.Prelude.{◌≡◌, string_bytes, IfOk};
ghost use Rattle.sp_emit.specs.Summary.{summary};

use sp_plan::Memory;
use std::alloc::Global;

/// The summary of a run, with its line feed: how many events there were, how many windows they began, how
/// many matches were found, and how many events these consumed.
pub fn summary_text(
    alloc: Global,
    events: u32,
    windows: u32,
    matches: u64,
    consumed: u32,
) -> Result<String, Memory>
    ensures { IfOk result (λ text. string_bytes text ≡ summary events windows matches consumed) }
{
    format!(in alloc; "events={events} windows={windows} matches={matches} consumed={consumed}\n")
}
