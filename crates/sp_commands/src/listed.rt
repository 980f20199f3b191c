// What a run writes where proofs are asked for: the listing of its windows.
ghost use Rattle.std.specs.Prelude.{◌≡◌, map};
ghost use Rattle.std.specs.Arc.{arc_value};
ghost use Rattle.sp_listing.specs.Listing.{entry_text, listing_text, seen};
ghost use Rattle.sp_plan.specs.Compiled.{IsCompiled};
ghost use Rattle.sp_plan.specs.Sequential.{whole};
ghost use Rattle.sp_ports.specs.Giving.{AreGood};
ghost use Rattle.sp_ports.specs.Stopping.{is_end};
ghost use Rattle.sp_answer.specs.Written.{WritesText};
ghost use Rattle.sp_commands.specs.Run.{proofs_text};

use crate::output::write_texts;
use sp_answer::Written;
use sp_cert::prove;
use sp_intake::Stop;
use sp_io::Sink;
use sp_listing::{WindowProof, proof_lines};
use sp_plan::{Event, Match, Memory, Plan};
use std::alloc::Global;
use std::sync::Arc;

// Writes each line of an entry by one call.
fn write_entry<K: Sink>(
    alloc: Global,
    plan: &Plan,
    entry: &WindowProof,
    out: &mut K,
) -> Result<Written, Memory>
    ensures { WritesText (entry_text plan.now (seen entry.now))
        (K.state out.old) (K.state out.new) result }
{
    let lines = proof_lines(alloc, plan, entry)?;
    Ok(write_texts(&lines, out))
}

// Writes the entries, one after another.
fn write_entries<K: Sink>(
    alloc: Global,
    plan: &Plan,
    entries: &[WindowProof],
    out: &mut K,
) -> Result<Written, Memory>
    ensures { WritesText (listing_text plan.now (map seen entries.now))
        (K.state out.old) (K.state out.new) result }
{
    for entry in entries {
        let written = write_entry(alloc, plan, entry, out)?;
        match written {
            Written::All => {}
            Written::Failed => return Ok(Written::Failed),
        }
    }
    Ok(Written::All)
}

/// Writes the listing of the windows that the events closed, where these matches are those of their run: each of its
/// lines by one call. Whatever it answers, what was written begins the listing. The texts of one window are held at a
/// time.
pub fn write_proofs<K: Sink>(
    alloc: Global,
    plan: &Arc<Plan>,
    events: &[Event],
    stop: Stop,
    matches: Vec<Match>,
    out: &mut K,
) -> Result<Written, Memory>
    requires compiled { IsCompiled (arc_value plan.now) }
    requires good { AreGood (arc_value plan.now) events.now }
    requires whole { matches.items
        ≡ (whole (arc_value plan.now) events.now (is_end stop)).matches }
    ensures { let text = proofs_text (arc_value plan.now) events.now stop in
        WritesText text (K.state out.old) (K.state out.new) result }
{
    let entries = prove(alloc, plan.clone()?, events, stop.is_end(), matches)?;
    write_entries(alloc, plan, &entries, out)
}
