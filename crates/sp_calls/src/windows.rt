// The windows of events.
ghost use Rattle.std.specs.Prelude.{◌≡◌, ◌≤◌, false, length};
ghost use Rattle.std.specs.Arc.{arc_value};
ghost use Rattle.sp_plan.specs.Compiled.{IsCompiled};

use crate::text::AnswerText;
use sp_plan::{Event, Plan};
use sp_window::{Window, Windows};
use std::alloc::{AllocError, Global};
use std::sync::Arc;

// Appends a window: its first event, and its last where it is closed.
fn push_window(window: Window, out: &mut AnswerText) {
    out.number(" ", window.first as i128);
    match window.end {
        Some(end) => out.number("-", end as i128),
        None => out.text("-"),
    }
}

// Appends how many windows are closed of how many, and where there are few, each of them.
fn push_windows(windows: &Windows, out: &mut AnswerText) {
    let count = windows.count();
    out.number("", windows.closed() as i128);
    out.number(" of ", count as i128);
    out.text(":");
    for number in 0..10 {
        match windows.get(number) {
            Some(window) if count <= 8 => push_window(window, out),
            _ => {}
        }
    }
    out.text("\n");
}

// Feeds the events that fit the plan and go on in time, where there are at most 1,000 of them.
fn feed(
    alloc: Global,
    plan: &Plan,
    windows: &mut Windows,
    events: &[Event],
) -> Result<(), AllocError>
    requires plan { windows.old.plan ≡ plan.now }
    requires going { windows.old.ended ≡ false }
    requires first { windows.old.time ≡ 0 }
    requires none { windows.old.fed ≡ 0 }
{
    if events.len() > 1000 {
        return Ok(());
    }
    let mut last = 0i64;
    for event in events {
        if plan.fits(event) && last <= event.time {
            last = event.time;
            windows.feed(alloc, event)?;
        }
    }
    Ok(())
}

/// Appends a line for the windows before the end of input and one for those after it.
pub(crate) fn windows(
    alloc: Global,
    plan: &Arc<Plan>,
    events: &[Event],
    out: &mut AnswerText,
) -> Result<(), AllocError>
    requires { IsCompiled (arc_value plan.now) }
{
    let mut windows = Windows::new(alloc, plan.clone()?)?;
    let fed = feed(alloc, plan, &mut windows, events);
    push_windows(&windows, out);
    windows.end();
    push_windows(&windows, out);
    drop(windows);
    fed
}
