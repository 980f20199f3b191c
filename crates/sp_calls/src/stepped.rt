// A core that is stepped by a fixed rule over many events.
ghost use Rattle.std.specs.Arc.{arc_value};
ghost use Rattle.sp_plan.specs.Compiled.{IsCompiled};

use crate::given::number;
use crate::stepping::{conflict_of, fed, feed_next};
use crate::text::AnswerText;
use sp_core::{Core, CoreFault};
use sp_group::Label;
use sp_piece::{Piece, Stepped};
use sp_plan::{Event, Plan, Value, Values};
use std::alloc::{AllocError, Global};
use std::sync::Arc;

// How many versions are live at a time, how many events are fed between, and how many a version is lent.
const LIVE: u32 = 8;

const FED: u32 = 20;

const LENT: u32 = 64;

// Whether a step was done; a refusal is none, and want of memory is an error.
fn is_done<T: Drop>(answer: Result<T, CoreFault>) -> Result<bool, AllocError> {
    match answer {
        Ok(_) => Ok(true),
        Err(CoreFault::Refused(_)) => Ok(false),
        Err(CoreFault::Memory) => Err(AllocError),
    }
}

// The event of a number: its time is the number, and its only value one of the first 40 symbols.
fn event_of(alloc: Global, number: u32) -> Result<Event, AllocError> {
    let scattered = number.wrapping_mul(2_654_435_761) >> 16;
    Ok(Event {
        time: i64::from(number),
        values: Values::from_slice(alloc, &[Value::Symbol(scattered % 40)])?,
    })
}

// Feeds the next events of so many, and then the end of input.
fn feed_some(alloc: Global, core: &mut Core, count: u32) -> Result<(), AllocError> {
    for _ in 0..FED {
        let fed = fed(core);
        if fed >= count {
            let _ = core.end();
            return Ok(());
        }
        is_done(feed_next(alloc, core, event_of(alloc, fed + 1)?))?;
    }
    Ok(())
}

// The newest version, if one is live.
fn newest(alloc: Global, core: &Core) -> Result<Option<u64>, AllocError> {
    Ok(core.tree().walk(alloc)?.last().copied())
}

// Spawns a root where none is live, and a chain of children, each under the guess that no group completes.
fn spawn_all(alloc: Global, core: &mut Core) -> Result<(), AllocError> {
    for _ in 0..LIVE {
        let parent = newest(alloc, core)?;
        if !is_done(core.spawn(alloc, parent, Label::empty(alloc)))? {
            return Ok(());
        }
    }
    Ok(())
}

// Rolls each version that is in conflict.
fn roll_all(alloc: Global, core: &mut Core) -> Result<(), AllocError> {
    for version in core.tree().walk(alloc)? {
        if conflict_of(core, version)?.is_some() {
            let _ = core.roll(version);
        }
    }
    Ok(())
}

// Reads a piece whole.
fn read(alloc: Global, piece: &mut Piece) -> Result<(), AllocError> {
    for _ in 0..=LENT {
        if piece.step(alloc)? == Stepped::Finished {
            return Ok(());
        }
    }
    Ok(())
}

// Gives a piece back; answers whether there was memory for it.
fn give(alloc: Global, core: &mut Core, piece: Piece) -> bool {
    let given = core.give_back(alloc, piece);
    let is_given = given.is_ok();
    drop(given);
    is_given
}

// Has a piece read whole, and gives it back.
fn read_and_give(alloc: Global, core: &mut Core, piece: Piece) -> Result<(), AllocError> {
    let mut piece = piece;
    let read = read(alloc, &mut piece);
    if give(alloc, core, piece) {
        read
    } else {
        Err(AllocError)
    }
}

// Lends a version its next events, has them read, and gives the piece back.
fn read_on(alloc: Global, core: &mut Core, version: u64) -> Result<(), AllocError> {
    match core.lease(alloc, version, LENT) {
        Ok(job) => read_and_give(alloc, core, Piece::start(alloc, job)),
        Err(_) => Ok(()),
    }
}

// One turn.
fn turn(alloc: Global, core: &mut Core, count: u32) -> Result<(), AllocError> {
    feed_some(alloc, core, count)?;
    spawn_all(alloc, core)?;
    roll_all(alloc, core)?;
    for version in core.ready(alloc)? {
        read_on(alloc, core, version)?;
    }
    for _ in 0..LIVE {
        if core.finish().is_err() {
            return Ok(());
        }
    }
    Ok(())
}

// Turns until all windows of so many events are finished.
fn turns(alloc: Global, core: &mut Core, count: u32) -> Result<(), AllocError> {
    for _ in 0..count {
        turn(alloc, core, count)?;
        let is_over = fed(core) == count && core.finished() == core.windows().count();
        if is_over {
            return Ok(());
        }
    }
    Ok(())
}

/// Appends how many windows and matches a core has finished that was fed so many events as the word behind the
/// query says.
pub(crate) fn stepped(
    alloc: Global,
    plan: &Arc<Plan>,
    words: &[String],
    out: &mut AnswerText,
) -> Result<(), AllocError>
    requires { IsCompiled (arc_value plan.now) }
{
    let [_, count] = words else {
        return Ok(out.text("no count\n"));
    };
    let mut core = Core::new(alloc, plan.clone()?, LIVE)?;
    let turned = turns(alloc, &mut core, number(count.as_str()));
    out.number("events ", i128::from(fed(&core)));
    out.number(" windows ", i128::from(core.finished()));
    out.number(" matches ", core.emitted().len() as i128);
    out.number(" used ", core.consumed().list().len() as i128);
    out.text("\n");
    drop(core);
    turned
}
