// Whether a listing is the proofs of a run.
ghost use Rattle.std.specs.Prelude.{◌≡◌, ◌↔◌, ◌≤◌, ◌+◌, ℕ, Some, length, map, slice_get, IfOk};
ghost use Rattle.std.specs.Arc.{arc_value};
ghost use Rattle.sp_base.specs.Limits.{event_limit};
ghost use Rattle.sp_plan.specs.Compiled.{IsCompiled};
ghost use Rattle.sp_plan.specs.Events.{AllFit, NeverGoesBack};
ghost use Rattle.sp_listing.specs.declared.proof.WindowProof as kept;
ghost use Rattle.sp_listing.specs.Listing.{seen};
ghost use Rattle.sp_cert.specs.Proofs.{proofs};
ghost use Rattle.sp_cert.specs.Spans.{AreWindowsOf};
ghost use Rattle.sp_cert.specs.Verdicts.{AgreeTo, DiffersFirst};

use crate::gather::alone_by_threads;
use crate::pass::following;
use crate::spans::windows_of;
use sp_listing::WindowProof;
use sp_plan::{Event, Memory, Plan};
use sp_window::Windows;
use std::alloc::Global;
use std::sync::Arc;
use std::thread::Threads;

/// What is said of a listing.
#[derive(Clone, Copy, Drop, Debug, PartialEq, Eq)]
pub enum Verdict {
    /// It is right.
    Yes,
    /// It is wrong first at the entry of this number, which counts from 1: that is another one than the
    /// window's of this number, or missing, or one too many.
    No { window: u32 },
}

// How many proofs from the first on are of closed windows in a row.
fn in_row(listing: &[WindowProof], closed: u32) -> usize
    ensures within { result ≤ length listing.now }
    ensures stops { (one : kept.WindowProof) → slice_get listing.now result ≡ Some one
        → ¬ ((one.window ≤ closed) × (one.window ≡ result + 1)) }
{
    for (place, proof) in listing.iter().enumerate() {
        if proof.window > closed || proof.window as usize != place + 1 {
            return place;
        }
    }
    listing.len()
}

// How many proofs from the first on are those of a run.
fn right<R: Threads + Sync>(
    rt: &R,
    alloc: Global,
    plan: &Plan,
    events: &[Event],
    windows: &Windows,
    listing: &[WindowProof],
) -> Result<usize, Memory>
    requires { AreWindowsOf plan.now events.now windows.now }
    ensures { IfOk result (AgreeTo (map seen listing.now)
        (proofs plan.now events.now windows.now.ended)) }
{
    let row = &listing[..in_row(listing, windows.closed())];
    let alone = alone_by_threads(rt, alloc, plan, events, windows, row)?;
    following(alloc, events.len(), &row[..alone])
}

/// Whether a listing is the proofs of a run over the events, whoever made it. What the windows match is
/// worked out anew, for each window by itself and side by side on at most 16 threads; then the proofs are
/// held against each other in their order. The conditions on the events are those of a run; of the listing
/// none is asked. Fails for want of memory alone.
pub fn check<R: Threads + Sync>(
    rt: &R,
    alloc: Global,
    plan: Arc<Plan>,
    events: &[Event],
    ended: bool,
    listing: &[WindowProof],
) -> Result<Verdict, Memory>
    requires compiled { IsCompiled (arc_value plan) }
    requires few { length events.now ≤ event_limit }
    requires fit { AllFit (arc_value plan) events.now }
    requires ordered { NeverGoesBack events.now }
    ensures yes { IfOk result (λ verdict. (verdict ≡ Verdict.Yes)
        ↔ (map seen listing.now ≡ proofs (arc_value plan) events.now ended)) }
    ensures no { IfOk result (λ verdict. (window : ℕ) → verdict ≡ Verdict.No window
        → DiffersFirst (map seen listing.now) (proofs (arc_value plan) events.now ended) window) }
{
    let windows = windows_of(alloc, plan.clone()?, events, ended)?;
    let right = right(rt, alloc, &plan, events, &windows, listing)?;
    if right == listing.len() && right == windows.closed() as usize {
        return Ok(Verdict::Yes);
    }
    Ok(Verdict::No {
        window: right as u32 + 1,
    })
}
