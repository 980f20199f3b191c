// Many tickets pass through a hub, the poster waiting for each: a wake-up that were lost would leave it asleep.
ghost use Rattle.std.specs.Prelude.{◌≡◌, false};

use crate::hubs::Note;
use crate::waking::post;
use sp_hub::{Hub, Naming, Opened, Poster, Seat, Taken};
use std::alloc::Global;
use std::marker::Brand;
use std::process::Abort;
use std::sync::Wait;
use std::test::*;
use std::thread;
use std::thread::Threads;

// How many tickets pass.
const TICKETS: u64 = 200_000;

// How many seats there are.
const SEATS: u32 = 4;

#[test]
fn all_tickets_pass_with_room_for_one(rt: HostRuntime) -> Result<(), Fail> {
    pass::<Brand, _>(&rt, rt.alloc(), Opened::new(rt.alloc(), SEATS, 1)?)
}

#[test]
fn all_tickets_pass_with_room_for_five(rt: HostRuntime) -> Result<(), Fail> {
    pass::<Brand, _>(&rt, rt.alloc(), Opened::new(rt.alloc(), SEATS, 5)?)
}

// Seats on threads of their own, and the poster on this one.
fn pass<L: Naming + Send + Sync, R: Threads + Wait + Abort + Sync>(
    rt: &R,
    alloc: Global,
    opened: Opened<Note>,
) -> Result<(), Fail>
    requires { (opened.name ≡ L.name) × (opened.parts ≡ L.parts)
        × (opened.table ≡ L.table) }
{
    let (hub, by, seats) = Hub::<Note, Note, L>::new(alloc, opened)?;
    let shared = &hub;
    let (seats, by) = thread::join(
        rt,
        move || serve_all(rt, shared, seats),
        move || post_all(rt, shared, by),
    );
    let Ok(history) = hub.finish(by, seats) else {
        return Err("all seats".into());
    };
    let put = history
        .puts
        .as_slice()
        .iter()
        .copied()
        .fold(0, u64::saturating_add);
    assert!(rt; put == TICKETS);
    assert!(rt; history.takes.as_slice() == history.puts.as_slice());
    Ok(())
}

// Serves at each seat, until the hub is closed.
fn serve_all<L: Naming + Send + Sync, R: Threads + Wait + Abort + Sync>(
    rt: &R,
    hub: &Hub<Note, Note, L>,
    seats: Vec<Seat<Note, L>>,
) -> Vec<Seat<Note, L>> {
    let mut seats = seats;
    let count = seats.len();
    if count > 0 {
        thread::for_each_mut(
            rt,
            &mut seats,
            count,
            &|_: usize, seat: &mut Seat<Note, L>| { serve(rt, hub, seat) },
        );
    }
    seats
}

// Puts back each job as its own piece. Asks again where there is none: the poster wakes no seat for a job that is
// listed alone.
fn serve<L: Naming, R: Wait + Abort>(rt: &R, hub: &Hub<Note, Note, L>, seat: &mut Seat<Note, L>) {
    for _ in rt.forever() {
        assert!(rt; seat.holding().is_none());
        match hub.take(rt, seat) {
            Taken::Job(job) => hub.put(rt, seat, job),
            Taken::Empty => thread::yield_now(),
            Taken::Closed => return,
        }
    }
}

// Posts all tickets and collects their pieces, as many at one time as there is room for.
fn post_all<L: Naming, R: Wait + Abort>(
    rt: &R,
    hub: &Hub<Note, Note, L>,
    by: Poster<Note, L>,
) -> Poster<Note, L> {
    let mut by = by;
    for ticket in 1..=TICKETS {
        if by.waiting() == by.room() {
            collect_one(rt, hub, &mut by);
        }
        post(rt, hub, &mut by, ticket);
    }
    for _ in rt.forever() {
        if by.waiting() == 0 {
            break;
        }
        collect_one(rt, hub, &mut by);
    }
    assert!(rt; !by.closed());
    hub.close(rt, &mut by);
    by
}

// Waits until a piece is home, and collects it.
fn collect_one<L: Naming, R: Wait + Abort>(
    rt: &R,
    hub: &Hub<Note, Note, L>,
    by: &mut Poster<Note, L>,
) {
    assert!(rt; by.waiting() > 0);
    hub.wait_home(rt, by);
    assert!(rt; hub.collect(rt, by).is_some());
}
