// The windows one after another.
ghost use Rattle.std.specs.Prelude.{◌≡◌, ◌≤◌, ◌<◌, length, IfOk, OnOk};
ghost use Rattle.std.specs.Arc.{arc_value};
ghost use Rattle.sp_base.specs.Limits.{event_limit};
ghost use Rattle.sp_plan.specs.Compiled.{IsCompiled};
ghost use Rattle.sp_plan.specs.Events.{AllFit, NeverGoesBack};
ghost use Rattle.sp_plan.specs.Sequential.{whole};
ghost use Rattle.sp_plan.specs.Windows.{closed};
ghost use Rattle.sp_window.specs.Standing.{Stands};
ghost use Rattle.sp_seq.specs.Learned.{AllKnown};
ghost use Rattle.sp_seq.specs.Spans.{IsSpan, IsSwept};

use crate::sweep::Sweep;
use crate::window::Window;
use sp_plan::{Event, Match, Memory, Plan};
use sp_window::Windows;
use std::alloc::Global;
use std::sync::Arc;

// The windows of the events.
fn windows_of(
    alloc: Global,
    plan: Arc<Plan>,
    events: &[Event],
    ended: bool,
) -> Result<Windows, Memory>
    requires compiled { IsCompiled (arc_value plan) }
    requires few { length events.now ≤ event_limit }
    requires fit { AllFit (arc_value plan) events.now }
    requires ordered { NeverGoesBack events.now }
    ensures plan { IfOk result (λ windows. windows.plan ≡ arc_value plan) }
    ensures stands { IfOk result (λ windows. Stands windows events.now ended) }
    ensures ended { IfOk result (λ windows. windows.ended ≡ ended) }
{
    let mut windows = Windows::new(alloc, plan)?;
    for event in events {
        windows.feed(alloc, event)?;
    }
    if ended {
        windows.end();
    }
    Ok(windows)
}

// The closed window of this number.
fn closed_window(windows: &Windows, events: &[Event], number: u32) -> Window
    requires compiled { IsCompiled windows.now.plan }
    requires stands { Stands windows.now events.now windows.now.ended }
    requires some { 0 < number }
    requires closed { number ≤ closed windows.now.plan events.now windows.now.ended }
    ensures number { result.number ≡ number }
    ensures span { IsSpan windows.now.plan events.now number result.first result.end }
{
    // Laws: the closed windows are the first ones, and a window holds consecutive events.
    sp_window::law::closed_come_first();
    sp_window::law::windows_hold();
    let Some(window) = windows.get(number) else {
        unreachable!()
    };
    let Some(end) = window.end else {
        unreachable!()
    };
    Window {
        number,
        first: window.first as usize - 1,
        end: end as usize,
    }
}

// Goes through the closed windows, of which none was gone through.
fn match_windows(
    alloc: Global,
    plan: &Plan,
    windows: &Windows,
    events: &[Event],
    sweep: &mut Sweep,
) -> Result<(), Memory>
    requires compiled { IsCompiled plan.now }
    requires plan { windows.now.plan ≡ plan.now }
    requires stands { Stands windows.now events.now windows.now.ended }
    requires few { length events.now ≤ event_limit }
    requires fit { AllFit plan.now events.now }
    requires swept { IsSwept plan.now events.now 0
        sweep.old.matches.items sweep.old.consumed.items }
    requires known { AllKnown plan.now events.now sweep.old.known.items }
    requires matcher { sweep.old.matcher.plan ≡ plan.now }
    ensures { OnOk result
        (sweep.new.matches.items ≡ (whole plan.now events.now windows.now.ended).matches) }
{
    for count in 0..windows.closed() {
        let window = closed_window(windows, events, count + 1);
        sweep.add_window(alloc, plan, events, window)?;
    }
    Ok(())
}

/// The matches of all windows that are closed, one window after another, each with its number from 1
/// on. A window is closed that no later event can join, and each one where the input has `ended`. The
/// plan is compiled, there are at most 1,048,576 events, they fit the plan, and their times never go
/// back. Want of memory leaves nothing behind: the plan and the events are only read.
pub fn plain(
    alloc: Global,
    plan: Arc<Plan>,
    events: &[Event],
    ended: bool,
) -> Result<Vec<Match>, Memory>
    requires compiled { IsCompiled (arc_value plan) }
    requires few { length events.now ≤ event_limit }
    requires fit { AllFit (arc_value plan) events.now }
    requires ordered { NeverGoesBack events.now }
    ensures { IfOk result
        (λ matches. matches.items ≡ (whole (arc_value plan) events.now ended).matches) }
{
    let windows = windows_of(alloc, plan.clone()?, events, ended)?;
    let mut sweep = Sweep::new(alloc, plan.clone()?, events)?;
    match_windows(alloc, &plan, &windows, events, &mut sweep)?;
    Ok(sweep.matches)
}
