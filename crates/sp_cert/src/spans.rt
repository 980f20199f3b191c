// The windows of the events, and where each begins and ends.
ghost use Rattle.std.specs.Prelude.{◌≡◌, ◌≤◌, length, IfOk};
ghost use Rattle.std.specs.Arc.{arc_value};
ghost use Rattle.sp_base.specs.Limits.{event_limit};
ghost use Rattle.sp_plan.specs.Compiled.{IsCompiled};
ghost use Rattle.sp_plan.specs.Windows.{closed};
ghost use Rattle.sp_plan.specs.WindowNumbers.{Good};
ghost use Rattle.sp_cert.specs.Spans.{AreWindowsOf, IsSpan};

use sp_plan::{Event, Memory, Plan};
use sp_window::Windows;
use std::alloc::Global;
use std::sync::Arc;

/// A closed window by the numbers of its first event and of its last.
#[derive(Clone, Copy, Drop)]
pub(crate) struct Span {
    pub(crate) first: u32,
    pub(crate) last: u32,
}

/// The windows of the events, the input ended behind them or not.
pub(crate) fn windows_of(
    alloc: Global,
    plan: Arc<Plan>,
    events: &[Event],
    ended: bool,
) -> Result<Windows, Memory>
    requires compiled { IsCompiled (arc_value plan) }
    requires few { length events.now ≤ event_limit }
    requires good { Good (arc_value plan) events.now }
    ensures windows { IfOk result (λ windows. AreWindowsOf (arc_value plan) events.now windows) }
    ensures ended { IfOk result (λ windows. windows.ended ≡ ended) }
{
    let mut opened = Windows::new(alloc, plan)?;
    for event in events {
        opened.feed(alloc, event)?;
    }
    if ended {
        opened.end();
    }
    Ok(opened)
}

/// The closed window of this number.
pub(crate) fn span_of(plan: &Plan, events: &[Event], windows: &Windows, number: u32) -> Span
    requires windows { AreWindowsOf plan.now events.now windows.now }
    requires low { 1 ≤ number }
    requires closed { number ≤ closed plan.now events.now windows.now.ended }
    ensures { IsSpan plan.now events.now number result.first result.last }
{
    let Some(window) = windows.get(number) else {
        unreachable!()
    };
    let Some(last) = window.end else {
        unreachable!()
    };
    Span {
        first: window.first,
        last,
    }
}
