// A core on one thread: events are fed, and the root is read, window after window.
ghost use Rattle.std.specs.Prelude.{◌≡◌, ◌≤◌, [], IfOk, OnOk, OnErr, Some};
ghost use Rattle.sp_base.specs.Limits.{batch_limit};
ghost use Rattle.sp_core.specs.Running.{begun};
ghost use Rattle.sp_spread.specs.Journaled.{MakesNoChild};
ghost use Rattle.sp_spread.specs.Limiting.{AsksAtMost};
ghost use Rattle.sp_splitter.specs.Stages.{matches_of};
ghost use Rattle.sp_split.specs.Driving.{Drove, FellShort};
ghost use Rattle.sp_split.specs.Prompt.{IsPrompt};
ghost use Rattle.sp_split.specs.Relay.{Relayed};
ghost use Rattle.sp_split.specs.Relieving.{AreDue, Relieved};
ghost use Rattle.sp_split.specs.Stages.{Advanced, CameAlone, IsAdvanced, IsAlone};
ghost use Rattle.sp_split.specs.Stopping.{IsThrough};

use crate::driver::Driver;
use crate::feeding::Fed;
use crate::relay::Team;
use crate::running::round;
use crate::working::work_off;
use crate::{Crew, Memory, Went, Why};
use sp_core::{Core, CoreFault};
use sp_plan::Event;
use sp_ports::{Intake, Outlet};
use std::alloc::{AllocError, Global};

// A core for which no instance works, and those that learn from it, one after another.
#[derive(Drop)]
struct Lone {
    core: Core,
    batch: u32,
    team: Team,
}

impl Driver for Lone {
    ghost use Rattle.sp_split.specs.Relieving.{AreDue, Relieved};
    ghost use Rattle.sp_split.specs.Stages.{IsAlone, CameAlone, alone_came};

    type Team = Team;

    ghost core = { λ lone. lone.core };

    ghost instances = { λ lone. 0 };

    ghost batch = { λ lone. lone.batch };

    ghost team = { λ lone. lone.team };

    ghost relieved = { λ old new. Relieved (λ one. (Predictor-box one).named one.value) old new };

    ghost ready = { λ lone. IsAlone lone.core × AreDue lone.team.relay lone.core.machine.finished };

    ghost came = { λ lone. CameAlone lone.core };

    ghost ready_came = { λ lone ready. alone_came lone.core ready.0 };

    fn core(&self) -> &Core {
        &self.core
    }

    fn batch(&self) -> u32 {
        self.batch
    }

    fn feed(&mut self, alloc: Global, event: Event) -> Result<(), Memory> {
        match self.core.feed(alloc, event) {
            Ok(_) => Ok(()),
            Err(CoreFault::Memory) => Err(AllocError),
            Err(CoreFault::Refused(_)) => unreachable!(),
        }
    }

    fn end(&mut self) {
        if self.core.end().is_err() {
            unreachable!()
        }
    }
}

// Round after round, until the run is over; answers why it is.
fn run_alone<I: Intake, O: Outlet>(
    alloc: Global,
    lone: &mut Lone,
    intake: &mut I,
    outlet: &mut O,
) -> Result<Why, Memory>
    requires fresh { lone.old.core ≡ begun lone.old.core.plan lone.old.core.bound }
    requires due { AreDue lone.old.team.relay lone.old.core.machine.finished }
    requires intake_plan { I.plan intake.old ≡ lone.old.core.plan }
    requires outlet_plan { O.plan outlet.old ≡ lone.old.core.plan }
    ensures ended { IfOk result (λ why. Drove (λ events. I.gave intake.old events intake.new)
        (I.ended intake.new)
        (I.stops intake.old) (I.stops intake.new) (I.cause intake.new)
        lone.old.core (O.state outlet.old) (O.state outlet.new)
        (record { core = lone.new.core; why = why })) }
    ensures alone { CameAlone lone.new.core }
    ensures relieved { OnOk result (Relieved (λ one. named one) lone.old.team lone.new.team) }
    ensures due { IfOk result (λ why. IsThrough (Some why)
        → AreDue lone.new.team.relay lone.new.core.machine.finished) }
    ensures short { OnErr result
        (FellShort (λ events. I.gave intake.old events intake.new) (I.ended intake.new)
        lone.old.core.plan (O.state outlet.old) (O.state outlet.new)) }
    ensures prompt { IsPrompt (I.asked intake.old) intake.new lone.old.core.plan
        (O.state outlet.old) (O.state outlet.new) }
    ensures same { (I.plan intake.new ≡ I.plan intake.old)
        × (I.token intake.new ≡ I.token intake.old) }
    ensures same_out { (O.plan outlet.new ≡ O.plan outlet.old)
        × (O.token outlet.new ≡ O.token outlet.old) }
{
    let mut fed = Fed::More;
    // An intake ends long before so many rounds.
    for _ in 0..u64::MAX {
        let work = |lone: &mut Lone, alloc: Global|
            requires ready { IsAlone lone.old.core }
            requires due { AreDue lone.old.team.relay lone.old.core.machine.finished }
            ensures done { IfOk result
                (λ finished. Advanced lone.old.core lone.new.core (matches_of finished.items)) }
            ensures short { OnErr result (IsAdvanced lone.old.core lone.new.core) }
            ensures ready { OnOk result (IsAlone lone.new.core
                × AreDue lone.new.team.relay lone.new.core.machine.finished) }
            ensures came { CameAlone lone.new.core }
            ensures relieved { Relieved (λ one. named one) lone.old.team lone.new.team }
            ensures batch { lone.new.batch ≡ lone.old.batch }
        { work_off(alloc, &mut lone.core, &mut lone.team) };
        let round = round(alloc, lone, work, fed, intake, outlet)?;
        if let Some(why) = round.over {
            return Ok(why);
        }
        fed = round.fed;
    }
    Ok(Why::Memory)
}

/// Runs a core that has done no step from an intake to an outlet, on this thread, until the intake gives no more.
/// It always returns, and no speculative version is made. `Whole` comes only where the intake reached the end of
/// its input, `Stopped` only where its count of stops rose, with the reason that it keeps, `Refused` only where the
/// outlet's count of faults did; the windows that are closed are finished for the first two, and all their matches
/// were taken. After want of memory the outlet took the first matches of what the events given come to. However it
/// ends, where the intake asked the outside for more last, the outlet had taken all matches of the windows that the
/// events given before close.
///
/// The predictors take one another's place, each right behind the finish that makes it due.
///
/// Besides, and no clause says so: at most `batch` events, 1 to 1,024, are fed before the windows that they closed
/// are finished, and the predictor in work learns from what was read.
pub(crate) fn drive_alone<I: Intake, O: Outlet>(
    alloc: Global,
    core: Core,
    batch: u32,
    crew: Crew,
    intake: &mut I,
    outlet: &mut O,
) -> Result<(Went, Crew), Memory>
    requires fresh { core ≡ begun core.plan core.bound }
    requires some { 1 ≤ batch }
    requires most { batch ≤ batch_limit }
    requires intake_plan { I.plan intake.old ≡ core.plan }
    requires outlet_plan { O.plan outlet.old ≡ core.plan }
    ensures ended { IfOk result (λ end. Drove (λ events. I.gave intake.old events intake.new)
        (I.ended intake.new)
        (I.stops intake.old) (I.stops intake.new) (I.cause intake.new)
        core (O.state outlet.old) (O.state outlet.new) end.0) }
    ensures alone { IfOk result (λ end. MakesNoChild end.0.core.journal) }
    ensures asked { IfOk result (λ end. AsksAtMost batch_limit end.0.core.journal) }
    ensures crew { IfOk result (λ end. Relayed (λ one. named one) crew end.1 end.0.why
        end.0.core.machine.finished) }
    ensures short { OnErr result
        (FellShort (λ events. I.gave intake.old events intake.new) (I.ended intake.new)
        core.plan (O.state outlet.old) (O.state outlet.new)) }
    ensures prompt { IsPrompt (I.asked intake.old) intake.new core.plan (O.state outlet.old)
        (O.state outlet.new) }
    ensures same { (I.plan intake.new ≡ I.plan intake.old)
        × (I.token intake.new ≡ I.token intake.old) }
    ensures same_out { (O.plan outlet.new ≡ O.plan outlet.old)
        × (O.token outlet.new ≡ O.token outlet.old) }
{
    let mut lone = Lone {
        core,
        batch,
        team: Team::of(crew),
    };
    let why = run_alone(alloc, &mut lone, intake, outlet)?;
    let Lone { core, team, .. } = lone;
    Ok((Went { core, why }, team.into_crew()))
}
