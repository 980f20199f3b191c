// The half of the check that takes each proof by itself, against what it says that it skips.
ghost use Rattle.std.specs.Prelude.{◌↔◌, IsTrue, IfOk};
ghost use Rattle.sp_listing.specs.Listing.{seen};
ghost use Rattle.sp_cert.specs.Checking.{AloneTo, StandsAlone};
ghost use Rattle.sp_cert.specs.Spans.{AreWindowsOf};

use crate::flags::used_within;
use crate::same::tell_of;
use crate::spans::span_of;
use sp_listing::WindowProof;
use sp_plan::{Event, Memory, Plan};
use sp_scan::scanned;
use sp_window::Windows;
use std::alloc::Global;

// Whether a proof is right by itself.
fn stands_alone(
    alloc: Global,
    plan: &Plan,
    events: &[Event],
    windows: &Windows,
    proof: &WindowProof,
) -> Result<bool, Memory>
    requires { AreWindowsOf plan.now events.now windows.now }
    ensures { IfOk result (λ alone. IsTrue alone
        ↔ StandsAlone plan.now events.now windows.now.ended (seen proof.now)) }
{
    if proof.window == 0 || proof.window > windows.closed() {
        return Ok(false);
    }
    let span = span_of(plan, events, windows, proof.window);
    if proof.first != span.first || proof.last != span.last {
        return Ok(false);
    }
    let runs = scanned(alloc, plan, events, span.first, span.last, &proof.skipped)?;
    if !tell_of(proof.window, &proof.matches, &runs) {
        return Ok(false);
    }
    let used = used_within(alloc, &proof.matches, span.first, span.last)?;
    Ok(used.list() == proof.used.list())
}

/// How many proofs from the first on are right by themselves.
pub(crate) fn alone(
    alloc: Global,
    plan: &Plan,
    events: &[Event],
    windows: &Windows,
    proofs: &[WindowProof],
) -> Result<usize, Memory>
    requires { AreWindowsOf plan.now events.now windows.now }
    ensures { IfOk result (AloneTo plan.now events.now windows.now.ended proofs.now) }
{
    for (place, proof) in proofs.iter().enumerate() {
        if !stands_alone(alloc, plan, events, windows, proof)? {
            return Ok(place);
        }
    }
    Ok(proofs.len())
}
