ghost use Rattle.std.specs.Prelude.{◌≡◌};
ghost use Rattle.sp_instance.specs.Doing.{IsDone};

use crate::Gate;
use sp_hub::{Naming, Seat};
use sp_lend::{Lending, Loan, Reading};
use std::alloc::Global;

/// Does a job at a seat, inside the gate: reads all that it lends. Where memory is refused the piece is given
/// up, with what it has read.
pub fn do_job<B: Lending + Send, L: Naming, G: Gate>(
    alloc: Global,
    seat: &Seat<Reading<B>, L>,
    job: Loan<B>,
    gate: &G,
) -> Reading<B>
    ensures job { result.job ≡ job }
    ensures done { IsDone result }
{
    do_job_at(alloc, seat.number(), job, gate)
}

/// The same at the seat of this number.
pub(crate) fn do_job_at<B: Lending, G: Gate>(
    alloc: Global,
    seat: u32,
    job: Loan<B>,
    gate: &G,
) -> Reading<B>
    ensures job { result.job ≡ job }
    ensures done { IsDone result }
{
    let ticket = job.job().ticket;
    gate.enter(seat, ticket);
    let mut piece = Reading::start(job);
    if piece.read_whole(alloc).is_err() {
        piece.give_up();
    }
    gate.leave(seat, ticket);
    piece
}
