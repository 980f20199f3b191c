// The windows of all events of an input.
ghost use Rattle.std.specs.Prelude.{◌≡◌, ◌≤◌, false, length, IfOk};
ghost use Rattle.std.specs.Arc.{arc_value};
ghost use Rattle.sp_base.specs.Limits.{event_limit};
ghost use Rattle.sp_plan.specs.Compiled.{IsCompiled};
ghost use Rattle.sp_plan.specs.WindowNumbers.{Good};
ghost use Rattle.sp_window.specs.Standing.{Stands};

use sp_plan::{Event, Memory, Plan};
use sp_window::Windows;
use std::alloc::Global;
use std::sync::Arc;

// The windows that these events open, where the input has not ended behind them.
fn fed(alloc: Global, plan: Arc<Plan>, events: &[Event]) -> Result<Windows, Memory>
    requires compiled { IsCompiled (arc_value plan) }
    requires good { Good (arc_value plan) events.now }
    requires few { length events.now ≤ event_limit }
    ensures stands { IfOk result (λ windows. Stands windows events.now false) }
    ensures plan { IfOk result (λ windows. windows.plan ≡ arc_value plan) }
    ensures more { IfOk result (λ windows. windows.ended ≡ false) }
{
    let mut windows = Windows::new(alloc, plan)?;
    for event in events {
        windows.feed(alloc, event)?;
    }
    Ok(windows)
}

// The windows that these events open, and whether the input has ended behind them.
pub(crate) fn windows_of(
    alloc: Global,
    plan: Arc<Plan>,
    events: &[Event],
    ended: bool,
) -> Result<Windows, Memory>
    requires compiled { IsCompiled (arc_value plan) }
    requires good { Good (arc_value plan) events.now }
    requires few { length events.now ≤ event_limit }
    ensures stands { IfOk result (λ windows. Stands windows events.now ended) }
    ensures plan { IfOk result (λ windows. windows.plan ≡ arc_value plan) }
    ensures ended { IfOk result (λ windows. windows.ended ≡ ended) }
{
    let mut windows = fed(alloc, plan, events)?;
    if ended {
        windows.end();
    }
    Ok(windows)
}
