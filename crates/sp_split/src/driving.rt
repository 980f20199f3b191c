// A core and its instances, from an intake to an outlet.
ghost use Rattle.std.specs.Prelude.{◌≡◌, ◌≤◌, ◌<◌, [], IfOk, OnErr};
ghost use Rattle.sp_base.specs.Limits.{batch_limit};
ghost use Rattle.sp_core.specs.Running.{begun};
ghost use Rattle.sp_spread.specs.Limiting.{AsksAtMost};
ghost use Rattle.sp_split.specs.Driving.{CameAbout, Drove, FellShort, most_asked};
ghost use Rattle.sp_split.specs.Prompt.{IsPrompt};
ghost use Rattle.sp_split.specs.Relay.{Relayed};
ghost use Rattle.sp_split.specs.Serving.{Ends};

use crate::alone::drive_alone;
use crate::fitting::{Outfit, with_register};
use crate::joining::Ways;
use crate::lent::{LentIntake, LentOutlet};
use crate::{Crew, Ended, Memory};
use sp_base::Listed;
use sp_core::Core;
use sp_hub::History;
use sp_instance::Gate;
use sp_lend::Register;
use sp_ports::{Intake, Outlet};
use std::alloc::Global;
use std::marker::Brand;
use std::sync::Wait;
use std::thread::Threads;

/// Runs a core that has done no step from an intake to an outlet: events are fed, windows are worked on and
/// finished, and their matches put, until the intake gives no more. Its hub has seats for so many instances, 0 to
/// 16, and one for the splitter; without an instance there is no hub, and no speculative version is made. `Whole`
/// comes only where the intake reached the end of its input, `Stopped` only where its count of stops rose, with the
/// reason that it keeps, `Refused` only where the outlet's count of faults did; the windows that are closed are
/// finished for the first two, and all their matches were taken. After want of memory the outlet took the first
/// matches of what the events given come to. However it ends, where the intake asked the outside for more last, the
/// outlet had taken all matches of the windows that the events given before close. The history of the hub names the
/// seats of the instances, which are those from 1 on, as told at the end that no job will come. For each `every` windows
/// that are finished the next of the crew takes the place of the one in work, which is dropped, until none is left; the
/// last one works on. Those that are left come back, by their names and in their order; the ones that have not worked are
/// as they were.
///
/// Besides, and no clause says so: from where a turn lists a job that is worth waking an instance for, each instance has a
/// thread of its own where one can be made; a run that is over before starts no thread. Each job is done inside the gate;
/// at most `batch` events, 1 to 1,024, are fed between two turns; it is the predictor in work that is asked and
/// taught; and the next one takes its place at the end of the turn that finished the window or, without an instance,
/// right behind the finish.
pub fn drive<I: Intake, O: Outlet, G: Gate, R: Threads + Wait + Sync>(
    rt: &R,
    alloc: Global,
    core: Core,
    instances: u32,
    batch: u32,
    crew: Crew,
    intake: &mut I,
    outlet: &mut O,
    gate: &G,
) -> Result<Ended, Memory>
    requires fresh { core ≡ begun core.plan core.bound }
    requires instances { instances ≤ 16 }
    requires some { 1 ≤ batch }
    requires most { batch ≤ batch_limit }
    requires intake_plan { I.plan intake.old ≡ core.plan }
    requires outlet_plan { O.plan outlet.old ≡ core.plan }
    ensures ended { IfOk result (λ end. Drove (λ events. I.gave intake.old events intake.new)
        (I.ended intake.new)
        (I.stops intake.old) (I.stops intake.new) (I.cause intake.new)
        core (O.state outlet.old) (O.state outlet.new)
        (record { core = end.core; why = end.why })) }
    ensures about { IfOk result (λ end. CameAbout instances end.core end.history) }
    ensures asked { IfOk result
        (λ end. AsksAtMost (most_asked end.core.plan instances batch) end.core.journal) }
    ensures crew { IfOk result (λ end. Relayed (λ one. named one) crew end.crew end.why
        end.core.machine.finished) }
    ensures short { OnErr result
        (FellShort (λ events. I.gave intake.old events intake.new) (I.ended intake.new)
        core.plan (O.state outlet.old) (O.state outlet.new)) }
    ensures prompt { IsPrompt (I.asked intake.old) intake.new core.plan (O.state outlet.old)
        (O.state outlet.new) }
    ensures same { (I.plan intake.new ≡ I.plan intake.old)
        × (I.token intake.new ≡ I.token intake.old) }
    ensures same_out { (O.plan outlet.new ≡ O.plan outlet.old)
        × (O.token outlet.new ≡ O.token outlet.old) }
{
    if instances == 0 {
        return drive_lone(alloc, core, batch, crew, intake, outlet);
    }
    let outfit = Outfit {
        core,
        instances,
        batch,
        crew,
    };
    drive_shared(rt, alloc, outfit, intake, outlet, gate)
}

// Without an instance there is no hub.
#[tactic(auto, using(crate::proofs::About::came_alone))]
fn drive_lone<I: Intake, O: Outlet>(
    alloc: Global,
    core: Core,
    batch: u32,
    crew: Crew,
    intake: &mut I,
    outlet: &mut O,
) -> Result<Ended, Memory>
    requires fresh { core ≡ begun core.plan core.bound }
    requires some { 1 ≤ batch }
    requires most { batch ≤ batch_limit }
    requires intake_plan { I.plan intake.old ≡ core.plan }
    requires outlet_plan { O.plan outlet.old ≡ core.plan }
    ensures ends { Ends (λ events. I.gave intake.old events intake.new) (I.ended intake.new)
        (I.stops intake.old) (I.stops intake.new) (I.cause intake.new)
        0 batch core (O.state outlet.old) (O.state outlet.new) result }
    ensures crew { IfOk result (λ end. Relayed (λ one. named one) crew end.crew end.why
        end.core.machine.finished) }
    ensures prompt { IsPrompt (I.asked intake.old) intake.new core.plan (O.state outlet.old)
        (O.state outlet.new) }
    ensures same { (I.plan intake.new ≡ I.plan intake.old)
        × (I.token intake.new ≡ I.token intake.old) }
    ensures same_out { (O.plan outlet.new ≡ O.plan outlet.old)
        × (O.token outlet.new ≡ O.token outlet.old) }
{
    let (went, crew) = drive_alone(alloc, core, batch, crew, intake, outlet)?;
    let history = no_history(alloc);
    Ok(Ended {
        core: went.core,
        why: went.why,
        history,
        crew,
    })
}

// What no hub did.
fn no_history(alloc: Global) -> History
    ensures { result ≡ record { entries = []; takes = []; puts = []; over = [] } }
{
    History {
        entries: Listed::of(Vec::new(alloc)),
        takes: Listed::of(Vec::new(alloc)),
        puts: Listed::of(Vec::new(alloc)),
        over: Listed::of(Vec::new(alloc)),
    }
}

// With instances, to which the splitter leases. The ways in and out are lent to the thread that it runs on.
fn drive_shared<I: Intake, O: Outlet, G: Gate, R: Threads + Wait + Sync>(
    rt: &R,
    alloc: Global,
    outfit: Outfit,
    intake: &mut I,
    outlet: &mut O,
    gate: &G,
) -> Result<Ended, Memory>
    requires fresh { outfit.core ≡ begun outfit.core.plan outfit.core.bound }
    requires instances { (0 < outfit.instances) × (outfit.instances ≤ 16) }
    requires batch { (1 ≤ outfit.batch) × (outfit.batch ≤ batch_limit) }
    requires intake_plan { I.plan intake.old ≡ outfit.core.plan }
    requires outlet_plan { O.plan outlet.old ≡ outfit.core.plan }
    ensures ends { Ends (λ events. I.gave intake.old events intake.new) (I.ended intake.new)
        (I.stops intake.old) (I.stops intake.new) (I.cause intake.new)
        outfit.instances outfit.batch outfit.core
        (O.state outlet.old) (O.state outlet.new) result }
    ensures crew { IfOk result (λ end. Relayed (λ one. named one) outfit.crew end.crew end.why
        end.core.machine.finished) }
    ensures prompt { IsPrompt (I.asked intake.old) intake.new outfit.core.plan
        (O.state outlet.old) (O.state outlet.new) }
    ensures same { (I.plan intake.new ≡ I.plan intake.old)
        × (I.token intake.new ≡ I.token intake.old) }
    ensures same_out { (O.plan outlet.new ≡ O.plan outlet.old)
        × (O.token outlet.new ≡ O.token outlet.old) }
{
    let register = Register::new();
    let lent = Ways {
        intake: LentIntake { inner: intake },
        outlet: LentOutlet { inner: outlet },
    };
    let (ended, back) = with_register::<Brand, _, _, _, _>(rt, alloc, register, outfit, gate, lent);
    // The references that come back are used, which ties them to those that were lent.
    let (_intake, _outlet) = (back.intake.inner, back.outlet.inner);
    ended
}
