ghost use Rattle.std.specs.Prelude.{◌≡◌, ◌≤◌, ◌+◌, true, None, map, vec_len, vec_capacity};
ghost use Rattle.std.specs.List.{All};
ghost use Rattle.sp_instance.specs.Doing.{Worked, WorkedSome};
ghost use Rattle.sp_instance.specs.Seats.{Counts, PutAll};

use crate::Gate;
use crate::doing::do_job_at;
use sp_hub::{Hub, Naming, Seat, Taken};
use sp_lend::{Lending, Loan, Reading};
use sp_piece::Piece;
use std::alloc::Global;
use std::sync::Wait;
use std::thread;
use std::thread::Threads;

// So many visits of an event at an open run take about as long as a look for a job, half a microsecond.
const VISITS_A_LOOK: u64 = 16;

// The most that a seat looks for a job before it sleeps: for a fifth of a millisecond or so.
const MOST_LOOKS: u64 = 400;

// How often a seat looks for a job before it sleeps: for about as long as the piece took that it read last. A thread
// takes some fifty microseconds to wake, so a sleep costs more than a cheap job, and looking costs no more than the
// job did.
fn looks_after(piece: &Piece) -> u32 {
    let runs = piece.after().open_runs().len() as u64;
    let visits = (piece.read() as u64).saturating_mul(runs);
    (visits / VISITS_A_LOOK).min(MOST_LOOKS) as u32
}

/// Does the jobs of a hub at a seat until it is answered that the hub is closed and empty: each piece that was put is
/// that of a job that was taken, read whole or given up for want of memory, in the order of taking, and none is left out.
/// Waits where no job is there.
pub fn work<B: Lending + Send, L: Naming, G: Gate, R: Wait>(
    rt: &R,
    alloc: Global,
    hub: &Hub<Loan<B>, Reading<B>, L>,
    seat: &mut Seat<Reading<B>, L>,
    gate: &G,
)
    requires { seat.old.holding ≡ None }
    ensures free { seat.new.holding ≡ None }
    ensures over { seat.new.over ≡ true }
    ensures done { Worked (λ jobs pieces. Counts seat.old jobs pieces seat.new) }
    ensures all { PutAll seat.old seat.new }
{
    let mut looks = 0;
    for _ in rt.forever() {
        match hub.take(rt, seat) {
            Taken::Job(job) => {
                let piece = do_job_at(alloc, seat.number(), job, gate);
                looks = looks_after(piece.piece());
                hub.put(rt, seat, piece);
            }
            Taken::Empty => hub.wait_job(rt, seat, looks),
            Taken::Closed => return,
        }
    }
    unreachable!()
}

/// Does jobs that are listed at a hub, at a seat, one after another, at most so many, and waits for none: each piece that
/// was put is that of a job that was taken, read whole or given up for want of memory, in the order of taking. It leaves
/// to the seats that were woken for a job what they come for. Answers how many.
pub fn work_some<B: Lending + Send, L: Naming, G: Gate, R: Wait>(
    rt: &R,
    alloc: Global,
    hub: &Hub<Loan<B>, Reading<B>, L>,
    seat: &mut Seat<Reading<B>, L>,
    gate: &G,
    most: u32,
) -> u32
    requires { seat.old.holding ≡ None }
    ensures free { seat.new.holding ≡ None }
    ensures done { WorkedSome (λ jobs pieces. Counts seat.old jobs pieces seat.new) result }
    ensures all { PutAll seat.old seat.new }
    ensures count { seat.new.calls ≡ seat.old.calls + result }
    ensures few { result ≤ most }
{
    for done in 0..most {
        let Taken::Job(job) = hub.take_spare(rt, seat) else {
            return done;
        };
        let piece = do_job_at(alloc, seat.number(), job, gate);
        hub.put(rt, seat, piece);
    }
    most
}

/// An instance for each seat, each on a thread of its own where one can be made, else one after another, until
/// each is answered that the hub is closed and empty; where there is no seat, nothing is done. No seat is lost,
/// whatever memory is refused, and each stands where it stood.
pub fn work_all<B: Lending + Send, L: Naming + Send + Sync, G: Gate, R: Threads + Wait + Sync>(
    rt: &R,
    alloc: Global,
    hub: &Hub<Loan<B>, Reading<B>, L>,
    seats: &mut Vec<Seat<Reading<B>, L>>,
    gate: &G,
)
    requires free { All (λ s. s.holding ≡ None) seats.old.items }
    ensures len { vec_len seats.new ≡ vec_len seats.old }
    ensures capacity { vec_capacity seats.new ≡ vec_capacity seats.old }
    ensures numbers { map (λ s. s.number) seats.new.items ≡ map (λ s. s.number) seats.old.items }
    ensures free { All (λ s. s.holding ≡ None) seats.new.items }
    ensures over { All (λ s. s.over ≡ true) seats.new.items }
{
    let count = seats.len();
    if count == 0 {
        return;
    }
    thread::for_each_mut(
        rt,
        seats,
        count,
        &|_: usize, seat: &mut Seat<Reading<B>, L>|
            requires { seat.old.holding ≡ None }
            ensures { (seat.new.holding ≡ None) × (seat.new.over ≡ true)
                × (seat.new.number ≡ seat.old.number) }
        { work(rt, alloc, hub, seat, gate) },
    );
}
