// The local half over all proofs, side by side on threads.
ghost use Rattle.std.specs.Prelude.{IfOk};
ghost use Rattle.sp_cert.specs.Checking.{AloneTo};
ghost use Rattle.sp_cert.specs.Spans.{AreWindowsOf};

use crate::local::alone;
use sp_listing::WindowProof;
use sp_plan::{Event, Memory, Plan};
use sp_window::Windows;
use std::alloc::Global;
use std::thread;
use std::thread::Threads;

// How many threads work side by side at most.
const MOST_THREADS: usize = 16;

/// How many proofs from the first on are right by themselves: the same as by `alone`, on at most 16
/// threads.
pub(crate) fn alone_by_threads<R: Threads + Sync>(
    rt: &R,
    alloc: Global,
    plan: &Plan,
    events: &[Event],
    windows: &Windows,
    proofs: &[WindowProof],
) -> Result<usize, Memory>
    requires { AreWindowsOf plan.now events.now windows.now }
    ensures { IfOk result (AloneTo plan.now events.now windows.now.ended proofs.now) }
{
    let size = proofs.len() / MOST_THREADS + 1;
    let counts = thread::map_chunks(
        rt,
        alloc,
        proofs,
        size,
        &|_: usize, part: &[WindowProof]|
            requires { AreWindowsOf plan.now events.now windows.now }
            ensures { IfOk result
                (AloneTo plan.entry.now events.entry.now windows.entry.now.ended part.entry.now) }
        { alone(alloc, plan, events, windows, part) },
    )?;
    let mut total = 0;
    for count in &counts {
        let count = (*count)?;
        total += count;
        if count < size {
            break;
        }
    }
    Ok(total)
}
