ghost use Rattle.std.specs.Prelude.{◌≡◌};
ghost use Rattle.sp_intake.specs.RowsSeen.{rows_at, IsAsking};
ghost use Rattle.sp_intake.specs.Pieces.{RowsTake};
ghost use Rattle.sp_intake.specs.ReadAll.{ReadsAll};

use crate::input::InputEvents;
use crate::reader::{RowReader, Step};
use sp_base::limits::PIECE_LIMIT;
use sp_io::Source;
use sp_plan::Memory;
use std::alloc::{AllocError, Global};

// Asks the source for a piece, which the rows are read of next.
fn ask<S: Source>(rows: &mut RowReader, piece: &mut [u8; PIECE_LIMIT], input: &mut S)
    requires asks { IsAsking rows.old }
    ensures takes { RowsTake (rows_at (S.state input.old) rows.old)
        (rows_at (S.state input.new) rows.new) }
{
    let read = input.read(piece);
    rows.take(piece, read);
}

/// All events of the rows, and why there are no more. Each goes from the one room that rows are read into to
/// the list's end.
pub(crate) fn read_all<S: Source>(
    alloc: Global,
    rows: &mut RowReader,
    input: &mut S,
) -> Result<InputEvents, Memory>
    ensures all { ReadsAll (rows_at (S.state input.old) rows.old)
        (rows_at (S.state input.new) rows.new) result }
{
    let mut piece = [0; PIECE_LIMIT];
    let mut events = Vec::new(alloc);
    let mut room = None;
    for _ in 0..u64::MAX {
        match rows.poll(alloc, &mut room)? {
            Step::Event => {
                if let Some(event) = room.take() {
                    events.push(event)?;
                }
            }
            Step::Ask => ask(rows, &mut piece, input),
            Step::Stop(stop) => return Ok(InputEvents { events, stop }),
        }
    }
    Err(AllocError)
}
