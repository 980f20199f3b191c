// The windows that open with an event.
ghost use Rattle.std.specs.Prelude.{◌≡◌, ℕ, ◌≤◌, ◌<◌, pos, ◌≤ℤ◌, ◌<ℤ◌, ◌+◌, ◌-◌, ◌*◌, ◌/◌, ◌++◌, ◌∷◌, [], map, IfOk, OnOk, OnErr, length, unsigned_abs};
ghost use Rattle.std.specs.List.{range_with_len};
ghost use Rattle.sp_base.specs.Limits.{event_limit, number_limit};
ghost use Rattle.sp_plan.specs.Windows.{IsLength, IsStepInTime, IsWindowed, duration};
ghost use Rattle.sp_plan.specs.Compiled.{IsCompiled, OpeningWithin};
ghost use Rattle.sp_plan.specs.Bounds.{IsSmall};
ghost use Rattle.sp_window.specs.declared.record.Limit.TheVariants.{AtTime};
ghost use Rattle.sp_window.specs.Openings as spec;
ghost use Rattle.sp_window.specs.Times.{stamp};
ghost use Rattle.sp_window.specs.Opens.{IsAhead, next_after};

use crate::record::{Limit, Record};
use sp_plan::{Bound, Event, Length, Memory, Opening, Plan, holds};
use std::alloc::{AllocError, Global};
use std::ops::Range;

// The time of an event, which is 0 or more.
pub(crate) fn stamp_of(event: &Event) -> u64
    requires { pos 0 ≤ℤ event.now.time }
    ensures { result ≡ stamp event.now }
{
    event.time as u64
}

// A window that begins with the event of this number and time.
fn begun(length: Length, number: u32, time: u64) -> Record
    requires length { IsLength length }
    requires number { number ≤ event_limit }
    requires time { time ≤ number_limit }
    ensures { result ≡ spec.open_at number (spec.limit_from length number time) }
{
    let limit = match length {
        Length::Events(count) => Limit::AtNumber(number + count),
        Length::Time(size) => Limit::AtTime(time + size as u64),
    };
    Record {
        first: number,
        limit,
        end: None,
    }
}

// The first of the spans of time from `next` on that is not over at this time.
fn first_span(step: u64, size: u64, next: u64, time: u64) -> u64
    requires step { 0 < step }
    requires time { time ≤ number_limit }
    ensures { result ≡ spec.first_begun step size next time }
{
    if time < size {
        return next;
    }
    next.max((time - size) / step + 1)
}

// Opens the windows of the spans of time from one on up to another, all with the event of this
// number. Where memory runs out the windows are as before.
fn open_spans(
    records: &mut Vec<Record>,
    number: u32,
    step: u64,
    size: u64,
    first: u64,
    end: u64,
) -> Result<(), Memory>
    requires size { size ≤ number_limit }
    requires times { (k : ℕ) → k < end → k * step ≤ number_limit }
    ensures opened { OnOk result
        (records.new.items
        ≡ records.old.items
        ++ map (λ k. spec.open_at number (AtTime (k * step + size)))
        (range_with_len first (end - first))) }
    ensures kept { OnErr result (records.new.items ≡ records.old.items) }
{
    let before = records.len();
    for span in first..end {
        let record = Record {
            first: number,
            limit: Limit::AtTime(span * step + size),
            end: None,
        };
        if records.push(record).is_err() {
            records.truncate(before);
            return Err(AllocError);
        }
    }
    Ok(())
}

// Opens the windows of the spans of time that begin from `next` on up to this time and are not over.
fn open_in_time(
    records: &mut Vec<Record>,
    number: u32,
    step: u64,
    size: u64,
    next: u64,
    time: u64,
) -> Result<u64, Memory>
    requires step { 0 < step }
    requires size { size ≤ number_limit }
    requires time { time ≤ number_limit }
    ensures opened { OnOk result
        (records.new.items
        ≡ records.old.items
        ++ map (λ k. spec.open_at number (AtTime (k * step + size)))
        (spec.spans_begun step size next time)) }
    ensures next { IfOk result (λ after. after ≡ time / step + 1) }
    ensures kept { OnErr result (records.new.items ≡ records.old.items) }
{
    let end = time / step + 1;
    let first = first_span(step, size, next, time);
    open_spans(records, number, step, size, first, end)?;
    Ok(end)
}

// Opens the windows that begin with the event of this number, and gives the next opening: for a step
// in events the place of its event from 0, for a step in time the number of its span from 0. Where
// memory runs out the windows are as before.
pub(crate) fn open(
    alloc: Global,
    plan: &Plan,
    next: u64,
    number: u32,
    event: &Event,
    records: &mut Vec<Record>,
) -> Result<u64, Memory>
    requires windowed { IsWindowed plan.now }
    requires within { OpeningWithin plan.now.opening }
    requires ahead { IsAhead plan.now.opening number next }
    requires from_one { 0 < number }
    requires number { number ≤ event_limit }
    requires early { pos 0 ≤ℤ event.now.time }
    requires late { event.now.time ≤ℤ pos number_limit }
    requires small { IsSmall event.now }
    ensures opened { OnOk result
        (records.new.items
        ≡ records.old.items
        ++ spec.opening_by plan.now.opening plan.now.length number next event.now) }
    ensures next { IfOk result
        (λ after. after ≡ next_after plan.now.opening number next event.now) }
    ensures kept { OnErr result (records.new.items ≡ records.old.items) }
{
    let time = stamp_of(event);
    match &plan.opening {
        Opening::EveryEvents(step) => {
            if u64::from(number) != next + 1 {
                return Ok(next);
            }
            records.push(begun(plan.length, number, time))?;
            Ok(next + u64::from(*step))
        }
        Opening::When(pred) => {
            if holds(pred, event, &Bound::new(alloc)) {
                records.push(begun(plan.length, number, time))?;
            }
            Ok(next)
        }
        Opening::EveryTime(step) => {
            let Length::Time(size) = plan.length else {
                unreachable!()
            };
            open_in_time(records, number, *step as u64, size as u64, next, time)
        }
    }
}
