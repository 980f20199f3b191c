// Events by time, where they came out of order.
ghost use Rattle.std.specs.Prelude.{◌≡◌, ◌≤◌, pos, ◌≤ℤ◌, true, false, [], List, length, IfOk, OnOk};
ghost use Rattle.std.specs.List.{All};
ghost use Rattle.sp_base.specs.Limits.{event_limit, number_limit};
ghost use Rattle.sp_plan.specs.declared.event.Event as came;
ghost use Rattle.sp_slack.specs.HeldBack.{slacked, AreTimely};
ghost use Rattle.sp_slack.specs.Standing.{kept_of, all_given, Stands};

use sp_plan::{Event, Memory};
use sp_slack::Slack;
use std::alloc::Global;

// Holds all events back, none of which is late.
fn hold(held: &mut Slack, events: Vec<Event>) -> Result<(), Memory>
    requires none { Stands (kept_of held.old) [] 0 }
    requires unasked { (kept_of held.old).offered ≡ 0 }
    requires going { (kept_of held.old).ended ≡ false }
    requires few { length events.items ≤ event_limit }
    requires timed { All (λ e. (pos 0 ≤ℤ e.time) × (e.time ≤ℤ pos number_limit)) events.items }
    requires timely { AreTimely (kept_of held.old).slack [] events.items }
    ensures stands { OnOk result (Stands (kept_of held.new) events.items 0) }
    ensures slack { (kept_of held.new).slack ≡ (kept_of held.old).slack }
    ensures going { (kept_of held.new).ended ≡ false }
{
    for event in events {
        held.offer(event)?;
    }
    Ok(())
}

// All events that are to be given, of so many that are held.
fn release(alloc: Global, held: &mut Slack, count: usize) -> Result<Vec<Event>, Memory>
    ensures { (events : List came.Event) → Stands (kept_of held.old) events 0
        → length events ≡ count
        → IfOk result (λ given. given.items ≡ all_given (kept_of held.old) events) }
{
    let mut given = Vec::with_capacity(alloc, count)?;
    for _ in 0..count {
        match held.next() {
            Some(event) => given.push(event)?,
            None => return Ok(given),
        }
    }
    Ok(given)
}

/// The events by time, those of one time as they came; where more may come, only those that none can come before.
/// None of them is late.
pub(crate) fn sorted(
    alloc: Global,
    slack: i64,
    events: Vec<Event>,
    ended: bool,
) -> Result<Vec<Event>, Memory>
    requires low { pos 0 ≤ℤ slack }
    requires high { slack ≤ℤ pos number_limit }
    requires few { length events.items ≤ event_limit }
    requires timed { All (λ e. (pos 0 ≤ℤ e.time) × (e.time ≤ℤ pos number_limit)) events.items }
    requires timely { AreTimely slack [] events.items }
    ensures { IfOk result (λ given. given.items ≡ slacked slack events.items ended) }
{
    let count = events.len();
    let mut held = Slack::new(alloc, slack);
    hold(&mut held, events)?;
    if ended {
        held.end();
    }
    release(alloc, &mut held, count)
}
