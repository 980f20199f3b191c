// The events of a window, one after another.
ghost use Rattle.std.specs.Prelude.{◌≡◌, ◌≤◌, length, IfOk};
ghost use Rattle.sp_plan.specs.Compiled.{IsCompiled};
ghost use Rattle.sp_plan.specs.Events.{AllFit};
ghost use Rattle.sp_scan.specs.Scanning.{scanned_of};

use crate::found::Found;
use crate::handling::handle;
use crate::offer::{Offer, may_of};
use crate::run::Run;
use crate::runs::Runs;
use sp_base::Numbers;
use sp_plan::{Event, Memory, Plan, law};
use std::alloc::Global;

/// The matches of the events of a window from the `first` to the `last`, those `skipped` left out, in the order in
/// which they come. The plan is compiled, and the events fit it; they are numbered from 1, and the last is there.
/// An event takes a step for each open run, and for one that it may concern a step for each name that this may take or
/// that guards it; where more runs are open than the plan has names, also a step for each of these. One that is skipped
/// takes a search among the skipped. Fails for want of memory alone.
pub fn scanned(
    alloc: Global,
    plan: &Plan,
    events: &[Event],
    first: u32,
    last: u32,
    skipped: &Numbers,
) -> Result<Vec<Found>, Memory>
    requires compiled { IsCompiled plan.now }
    requires fit { AllFit plan.now events.now }
    requires low { 1 ≤ first }
    requires within { last ≤ length events.now }
    ensures { IfOk result (λ found. found.items
        ≡ scanned_of plan.now events.now first last skipped.now.list) }
{
    // The numbers of an event that fits are small, which predicates ask for.
    law::fitting_events_are_small();
    let empty = Run::new(alloc, plan);
    let mut runs = Runs {
        open_runs: Vec::new(alloc),
        found: Vec::new(alloc),
    };
    for place in first as usize - 1..last as usize {
        let number = place as u32 + 1;
        if !skipped.has(number) {
            let event = &events[place];
            let offer = Offer {
                alloc,
                plan,
                empty: &empty,
                number,
                event,
                may: may_of(alloc, plan, event, runs.open_runs.len()),
            };
            runs = handle(&offer, runs)?;
        }
    }
    Ok(runs.found)
}
