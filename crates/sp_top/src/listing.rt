// The command `run --proof` by one tree: the input is read to where reading stops, its events are run over, and the
// proofs of the windows that they closed are listed.
ghost use Rattle.std.specs.Prelude.{◌≡◌, ◌≤◌, false, IfOk};
ghost use Rattle.std.specs.Arc.{arc_value};
ghost use Rattle.sp_base.specs.Limits.{live_limit, batch_limit};
ghost use Rattle.sp_plan.specs.Compiled.{IsCompiled};
ghost use Rattle.sp_plan.specs.Sequential.{whole};
ghost use Rattle.sp_ports.specs.Giving.{AreGood};
ghost use Rattle.sp_ports.specs.Stopping.{is_end};
ghost use Rattle.sp_answer.specs.Outcome.{ending};
ghost use Rattle.sp_answer.specs.Ran.{outside, Ran};
ghost use Rattle.sp_answer.specs.Written.{WritesText};
ghost use Rattle.sp_cli.specs.Commands.{speed_seen};
ghost use Rattle.sp_commands.specs.Commands.{lateness};
ghost use Rattle.sp_commands.specs.Run.{proofs_text, IsPlanTold};
ghost use Rattle.sp_top.specs.Asked.{IsManner};
ghost use Rattle.sp_top.specs.Over.{WentOver};
ghost use Rattle.sp_top.specs.Report.{ReportsPlan, WhereDone};

use crate::asked::Manner;
use crate::copies::copied;
use crate::law;
use crate::workshop::{CommandEnd, Workshop};
use sp_answer::{Status, Written};
use sp_cli::Speed;
use sp_commands::{Given, read_events, shared, write_proofs, written_status};
use sp_core::Core;
use sp_instance::Gate;
use sp_io::{Sink, Source};
use sp_lists::{ListIntake, Unkept};
use sp_plan::{Event, Memory, Plan};
use sp_ports::Stop;
use sp_split::{Crew, Ended, Why, drive};
use std::alloc::{AllocError, Global};
use std::sync::{Arc, Wait};
use std::thread::Threads;

/// Drives a core over these events, up to what comes behind them.
pub(crate) fn drive_events<G: Gate, R: Threads + Wait + Sync>(
    shop: &Workshop<'_, G, R>,
    plan: &Arc<Plan>,
    speed: &Speed,
    crew: Crew,
    events: Vec<Event>,
    stop: Stop,
) -> Result<Ended, Memory>
    requires compiled { IsCompiled (arc_value plan.now) }
    requires live { (1 ≤ speed.now.live) × (speed.now.live ≤ live_limit) }
    requires batch { (1 ≤ speed.now.batch) × (speed.now.batch ≤ batch_limit) }
    requires instances { speed.now.instances ≤ 16 }
    requires good { AreGood (arc_value plan.now) events.items }
    ensures { IfOk result
        (WentOver (arc_value plan.now) (speed_seen speed.now) events.items stop) }
{
    let Workshop { rt, alloc, gate } = shop;
    let (instances, batch) = (speed.instances, speed.batch);
    let (plan_in, plan_out) = (plan.clone()?, plan.clone()?);
    let core = Core::new(*alloc, plan.clone()?, speed.live)?;
    let mut intake = ListIntake::new(plan_in, events, stop);
    let mut outlet = Unkept::new(plan_out);
    let ended = drive(
        *rt,
        *alloc,
        core,
        instances,
        batch,
        crew,
        &mut intake,
        &mut outlet,
        *gate,
    )?;
    law::steps_lead_to(&ended.core);
    match ended.why {
        Why::Memory => Err(AllocError),
        _ => Ok(ended),
    }
}

// Lists the proofs of the windows that a core's events closed, whose matches it has found.
fn write_listing<K: Sink>(
    alloc: Global,
    plan: &Arc<Plan>,
    core: &Core,
    stop: Stop,
    out: &mut K,
) -> Result<Written, Memory>
    requires compiled { IsCompiled (arc_value plan.now) }
    requires good { AreGood (arc_value plan.now) core.now.machine.events }
    requires found { let all = whole (arc_value plan.now) core.now.machine.events (is_end stop) in
        core.now.machine.emitted ≡ all.matches }
    ensures { let text = proofs_text (arc_value plan.now) core.now.machine.events stop in
        WritesText text (K.state out.old) (K.state out.new) result }
{
    let matches = copied(alloc, core.emitted())?;
    write_proofs(alloc, plan, core.events(), stop, matches, out)
}

/// Runs a plan over the input, and lists the proofs of its windows.
pub(crate) fn list_plan<S: Source, K: Sink, G: Gate, R: Threads + Wait + Sync>(
    shop: &Workshop<'_, G, R>,
    plan: Plan,
    manner: Manner<'_>,
    crew: Crew,
    input: &mut S,
    out: &mut K,
) -> CommandEnd
    requires not_ended { (S.state input.old).ended ≡ false }
    requires compiled { IsCompiled plan }
    requires manner { IsManner manner }
    ensures ran { Ran (IsPlanTold proofs_text plan
        (lateness manner.entry.late.slack manner.entry.late.rule))
        (outside (S.state input.old) (K.state out.old))
        (outside (S.state input.new) (K.state out.new))
        (ending result.status) }
    ensures report { WhereDone (ReportsPlan plan
        (lateness manner.entry.late.slack manner.entry.late.rule) (speed_seen manner.entry.speed.now)
        (S.state input.old).left (S.state input.new).left) result.status result.ended }
{
    let Manner { speed, late } = manner;
    let Ok(plan) = shared(shop.alloc, plan) else {
        return CommandEnd::of(Status::Memory);
    };
    let Ok(given) = read_events(shop.alloc, &plan, late, input) else {
        return CommandEnd::of(Status::Memory);
    };
    let Given {
        events,
        stop,
        status,
    } = given;
    let Ok(ended) = drive_events(shop, &plan, speed, crew, events, stop) else {
        return CommandEnd::of(Status::Memory);
    };
    let written = write_listing(shop.alloc, &plan, &ended.core, stop, out);
    CommandEnd {
        status: written_status(status, written),
        ended: Some(ended),
    }
}
