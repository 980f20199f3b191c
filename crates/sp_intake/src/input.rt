ghost use Rattle.std.specs.Prelude.{◌≡◌, pos, ◌≤ℤ◌, false};
ghost use Rattle.std.specs.Arc.{arc_value};
ghost use Rattle.sp_base.specs.Limits.{number_limit};
ghost use Rattle.sp_plan.specs.Compiled.{IsCompiled};
ghost use Rattle.sp_intake.specs.Intake.{ReadsInput, ReadsNamed, ReadsLoose};

use crate::all::read_all;
use crate::reader::RowReader;
use sp_io::Source;
use sp_plan::{Event, Memory, Plan};
use sp_ports::Stop;
use sp_slack::LateRule;
use std::alloc::Global;
use std::sync::Arc;

/// The events that the rows gave, and why there are no more.
#[derive(Drop)]
pub struct InputEvents {
    pub events: Vec<Event>,
    pub stop: Stop,
}

/// The events that the rows gave, why there are no more, and the texts by their numbers: those of the query first, and
/// then those of the rows, each where it came first.
#[derive(Drop)]
pub struct NamedEvents {
    pub events: Vec<Event>,
    pub stop: Stop,
    pub texts: Vec<String>,
}

/// The events that the rows gave where they may come out of order, as they came; how many came too late and were
/// passed over; and why there are no more.
#[derive(Drop)]
pub struct LooseEvents {
    pub events: Vec<Event>,
    pub late: u32,
    pub stop: Stop,
}

/// Reads the rows of the input, up to its end, to the first one that fails or to a fault of the
/// source. The events fit the plan, and their times never go back.
pub fn read_input<S: Source>(
    alloc: Global,
    plan: &Arc<Plan>,
    input: &mut S,
) -> Result<InputEvents, Memory>
    requires compiled { IsCompiled (arc_value plan.now) }
    requires not_ended { (S.state input.old).ended ≡ false }
    ensures { ReadsInput (arc_value plan.now) (S.state input.old) (S.state input.new) result }
{
    let mut rows = RowReader::new(alloc, plan, 0, LateRule::Refuse)?;
    read_all(alloc, &mut rows, input)
}

/// The same, and the texts by their numbers. A row at which the reading stops since it is faulty or late has brought
/// none; one at which it stops since there are as many events as may be has.
pub fn read_named<S: Source>(
    alloc: Global,
    plan: &Arc<Plan>,
    input: &mut S,
) -> Result<NamedEvents, Memory>
    requires compiled { IsCompiled (arc_value plan.now) }
    requires not_ended { (S.state input.old).ended ≡ false }
    ensures { ReadsNamed (arc_value plan.now) (S.state input.old) (S.state input.new) result }
{
    let mut rows = RowReader::new(alloc, plan, 0, LateRule::Refuse)?;
    let InputEvents { events, stop } = read_all(alloc, &mut rows, input)?;
    let texts = rows.texts(alloc)?;
    Ok(NamedEvents {
        events,
        stop,
        texts,
    })
}

/// The same as `read_input` where an event may be behind the greatest time before it by a slack. The slack is at most the greatest
/// time. An event that is further behind is late: the reading stops at its row, or it is passed over. The events
/// fit the plan, and stand in the order in which they came.
pub fn read_loose<S: Source>(
    alloc: Global,
    plan: &Arc<Plan>,
    slack: i64,
    rule: LateRule,
    input: &mut S,
) -> Result<LooseEvents, Memory>
    requires compiled { IsCompiled (arc_value plan.now) }
    requires low { pos 0 ≤ℤ slack }
    requires high { slack ≤ℤ pos number_limit }
    requires not_ended { (S.state input.old).ended ≡ false }
    ensures { ReadsLoose (arc_value plan.now) (record { slack = slack; rule = rule })
        (S.state input.old) (S.state input.new) result }
{
    let mut rows = RowReader::new(alloc, plan, slack, rule)?;
    let InputEvents { events, stop } = read_all(alloc, &mut rows, input)?;
    let late = rows.late();
    Ok(LooseEvents { events, late, stop })
}
