// What a command is given of its input.
ghost use Rattle.std.specs.Prelude.{◌≡◌, pos, ◌≤ℤ◌, false};
ghost use Rattle.std.specs.Arc.{arc_value};
ghost use Rattle.sp_base.specs.Limits.{number_limit};
ghost use Rattle.sp_plan.specs.Compiled.{IsCompiled};
ghost use Rattle.sp_commands.specs.Commands as commands;
ghost use Rattle.sp_commands.specs.Ends.{came, came_within};
ghost use Rattle.sp_commands.specs.Given.{Brings};

use crate::asked::Lateness;
use crate::ends::{late_status, status_of};
use crate::sorted::sorted;
use sp_answer::Status;
use sp_intake::{InputEvents, Stop, read_input, read_loose};
use sp_io::Source;
use sp_plan::{Event, Memory, Plan};
use std::alloc::Global;
use std::sync::Arc;

/// The events for the engine, why there are no more, and the status where all lines are written.
#[derive(Drop)]
pub struct Given {
    pub events: Vec<Event>,
    pub stop: Stop,
    pub status: Status,
}

/// What the input gives where times may not go back.
pub(crate) fn in_time<S: Source>(
    alloc: Global,
    plan: &Arc<Plan>,
    input: &mut S,
) -> Result<Given, Memory>
    requires compiled { IsCompiled (arc_value plan.now) }
    requires not_ended { (S.state input.old).ended ≡ false }
    ensures { let q = arc_value plan.now in
        Brings q (came q) (S.state input.old) (S.state input.new) result }
{
    let InputEvents { events, stop } = read_input(alloc, plan, input)?;
    let status = status_of(stop);
    Ok(Given {
        events,
        stop,
        status,
    })
}

// What the input gives where events may be late: they are sorted by time once all are read.
fn by_time<S: Source>(
    alloc: Global,
    plan: &Arc<Plan>,
    late: Lateness,
    input: &mut S,
) -> Result<Given, Memory>
    requires compiled { IsCompiled (arc_value plan.now) }
    requires low { pos 0 ≤ℤ late.slack }
    requires high { late.slack ≤ℤ pos number_limit }
    requires not_ended { (S.state input.old).ended ≡ false }
    ensures { let q = arc_value plan.now in
        Brings q (came_within q (commands.lateness late.slack late.rule))
        (S.state input.old) (S.state input.new) result }
{
    let read = read_loose(alloc, plan, late.slack, late.rule, input)?;
    let stop = read.stop;
    let status = late_status(late.rule, read.late, stop);
    let events = sorted(alloc, late.slack, read.events, stop.is_end())?;
    Ok(Given {
        events,
        stop,
        status,
    })
}

/// What the input gives, read to where reading stops. The slack is at most the greatest time. Where no event may be
/// late nothing is sorted.
pub fn read_events<S: Source>(
    alloc: Global,
    plan: &Arc<Plan>,
    late: Lateness,
    input: &mut S,
) -> Result<Given, Memory>
    requires compiled { IsCompiled (arc_value plan.now) }
    requires low { pos 0 ≤ℤ late.slack }
    requires high { late.slack ≤ℤ pos number_limit }
    requires not_ended { (S.state input.old).ended ≡ false }
    ensures { let q = arc_value plan.now in
        Brings q (came_within q (commands.lateness late.slack late.rule))
        (S.state input.old) (S.state input.new) result }
{
    // a law: without slack, and where what is late is refused, events are those of times that may not go back
    sp_intake::loose_is_reading();
    if late.is_punctual() {
        return in_time(alloc, plan, input);
    }
    by_time(alloc, plan, late, input)
}
