// One turn of the root of a core that stands alone.
ghost use Rattle.std.specs.Prelude.{◌≡◌, ◌≤◌, [], Some, IsSome, IsTrue, IfOk, OnOk, OnErr};
ghost use Rattle.sp_group.specs.Machine.{Version, root_in};
ghost use Rattle.sp_group.specs.declared.step.Step.TheVariants as s;
ghost use Rattle.sp_core.specs.Running.{refused};
ghost use Rattle.sp_split.specs.Stages.{AllFinished, CutOff, IsOutAlone, Turned};
ghost use Rattle.sp_split.specs.declared.turning.Turn.TheVariants as t;

use crate::{Memory, law};
use sp_base::limits::BATCH_LIMIT;
use sp_chance::Predictor;
use sp_core::{Core, CoreFault, Emitted};
use sp_group::Label;
use sp_piece::Piece;
use sp_splitter::learn;
use std::alloc::{AllocError, Global};

/// What a turn came to.
#[derive(Drop)]
pub(crate) enum Turn {
    /// Nothing is left to do.
    Idle,
    /// The root was made, or has read on.
    Worked,
    /// The root's window is finished.
    Finished(Emitted),
}

// Makes the root of the next window, where that has begun.
fn begin(alloc: Global, core: &mut Core) -> Result<Turn, Memory>
    requires none_out { core.old.machine.tickets ≡ [] }
    requires none { core.old.machine.versions ≡ [] }
    ensures turned { IfOk result (Turned core.old core.new) }
    ensures err { OnErr result (CutOff core.old core.new) }
{
    law::steps_lead_to(core);
    law::closed_come_first();
    match core.spawn(alloc, None, Label::empty(alloc)) {
        Ok(_) => Ok(Turn::Worked),
        Err(CoreFault::Refused(_)) => Ok(Turn::Idle),
        Err(CoreFault::Memory) => Err(AllocError),
    }
}

// A piece whose ticket alone is out comes home.
fn bring_home(alloc: Global, core: &mut Core, piece: Piece) -> Result<(), Memory>
    requires { IsOutAlone core.old piece }
    ensures ok { OnOk result (Turned core.old core.new t.Worked) }
    ensures err { OnErr result (core.new ≡ core.old) }
{
    match core.come_home(alloc, piece) {
        Ok(()) => Ok(()),
        Err(_) => Err(AllocError),
    }
}

// Whether the root can wait: all closed windows are finished, so that its own is open, and one lease holds all
// that is unread of it. A lease in the middle of a window costs copies of its open runs, and brings no match on.
fn can_wait(core: &Core, root: u64) -> bool
    ensures { IsTrue result → AllFinished core.now }
{
    if core.windows().closed() != core.finished() {
        return false;
    }
    match core.tree().get(root) {
        Some(held) => {
            let next = held.first as usize + held.position as usize;
            core.events().len() < next + BATCH_LIMIT as usize
        }
        None => false,
    }
}

// The root, which is not done, reads the next events of its window, up to 1,024; or it waits for more.
fn read_on(
    alloc: Global,
    core: &mut Core,
    root: u64,
    predictor: &mut dyn Predictor,
) -> Result<Turn, Memory>
    requires none_out { core.old.machine.tickets ≡ [] }
    requires root { (v : Version) × (root_in core.old.machine.versions ≡ Some v) × (v.id ≡ root) }
    requires undone { IsSome (refused core.old s.Finish) }
    ensures turned { IfOk result (Turned core.old core.new) }
    ensures err { OnErr result (CutOff core.old core.new) }
    ensures name { named predictor.new ≡ named predictor.old }
{
    law::steps_lead_to(core);
    law::closed_come_first();
    if can_wait(core, root) {
        return Ok(Turn::Idle);
    }
    // A root that stands alone reads as many events as it can: each lease copies the open runs, and nobody
    // waits for a smaller one.
    let job = match core.lease(alloc, root, BATCH_LIMIT) {
        Ok(job) => job,
        Err(CoreFault::Refused(_)) => return Ok(Turn::Idle),
        Err(CoreFault::Memory) => return Err(AllocError),
    };
    let mut piece = Piece::start(alloc, job);
    piece.read_whole(alloc)?;
    learn(predictor, piece.moves());
    bring_home(alloc, core, piece)?;
    Ok(Turn::Worked)
}

/// One turn of the root: it is finished where it is done, and else reads on; where there is none, the next
/// window's is made. The predictor is the same one, by its name.
pub(crate) fn take_turn(
    alloc: Global,
    core: &mut Core,
    predictor: &mut dyn Predictor,
) -> Result<Turn, Memory>
    requires none_out { core.old.machine.tickets ≡ [] }
    ensures turned { IfOk result (Turned core.old core.new) }
    ensures err { OnErr result (CutOff core.old core.new) }
    ensures name { named predictor.new ≡ named predictor.old }
{
    let Some(root) = core.tree().root() else {
        return begin(alloc, core);
    };
    match core.finish() {
        Ok(emitted) => Ok(Turn::Finished(emitted)),
        Err(_) => read_on(alloc, core, root, predictor),
    }
}
