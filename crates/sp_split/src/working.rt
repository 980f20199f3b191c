// A core works until nothing is left to do.
ghost use Rattle.std.specs.Prelude.{◌≡◌, [], IfOk, OnOk, OnErr};
ghost use Rattle.sp_splitter.specs.Stages.{matches_of};
ghost use Rattle.sp_split.specs.Relieving.{AreDue, Relieved};
ghost use Rattle.sp_split.specs.Stages.{CutOff, Turned, WorkedOff, WorkedShort};

use crate::Memory;
use crate::relay::Team;
use crate::turning::{Turn, take_turn};
use sp_core::{Core, Emitted};
use std::alloc::{AllocError, Global};

// One turn. Right behind it the next predictors go to work, where a window that it finished makes one due.
fn turn_on(alloc: Global, core: &mut Core, team: &mut Team) -> Result<Turn, Memory>
    requires none_out { core.old.machine.tickets ≡ [] }
    requires due { AreDue team.old.relay core.old.machine.finished }
    ensures turned { IfOk result (Turned core.old core.new) }
    ensures err { OnErr result (CutOff core.old core.new) }
    ensures relieved { Relieved (λ one. named one) team.old team.new }
    ensures due { OnOk result (AreDue team.new.relay core.new.machine.finished) }
{
    let turn = take_turn(alloc, core, &mut *team.first)?;
    team.relieve(core.finished());
    Ok(turn)
}

/// Works until nothing is left to do, turn by turn; answers what each window that is finished emits, in order.
pub(crate) fn work_off(
    alloc: Global,
    core: &mut Core,
    team: &mut Team,
) -> Result<Vec<Emitted>, Memory>
    requires none_out { core.old.machine.tickets ≡ [] }
    requires due { AreDue team.old.relay core.old.machine.finished }
    ensures done { IfOk result
        (λ finished. WorkedOff core.old core.new (matches_of finished.items)) }
    ensures short { OnErr result (WorkedShort core.old core.new) }
    ensures relieved { Relieved (λ one. named one) team.old team.new }
    ensures due { OnOk result (AreDue team.new.relay core.new.machine.finished) }
{
    let mut finished = Vec::new(alloc);
    for _ in 0..u64::MAX {
        match turn_on(alloc, core, team)? {
            Turn::Idle => return Ok(finished),
            Turn::Worked => {}
            Turn::Finished(emitted) => finished.push(emitted)?,
        }
    }
    Err(AllocError)
}
