// Those who wait at a hub are woken. Who is to wake them stops the test where they don't go on, so that it never hangs.
ghost use Rattle.std.specs.Prelude.{◌≡◌, ◌<◌};

use crate::hubs::Note;
use sp_hub::{Hub, Naming, Opened, Poster, Seat, Taken};
use std::alloc::Global;
use std::hint::spin_loop;
use std::marker::Brand;
use std::process::Abort;
use std::sync::Wait;
use std::sync::atomic::AtomicU64;
use std::sync::atomic::Ordering::SeqCst;
use std::test::*;
use std::thread;
use std::thread::Threads;

// How often a seat looks for a job before it sleeps.
const FEW_LOOKS: u32 = 8;

// How often one looks whether all who wait have come so far.
const LOOKS: u32 = 500_000_000;

// How often one looks on, so that they fall asleep meanwhile.
const REST: u32 = 1_000_000;

// Who waits for what.
#[derive(Clone, Copy)]
enum Scene {
    // A seat for a job, where one is posted.
    First,
    // A seat for a job, where a second one is posted.
    Job,
    // Each seat for a job, where the hub is closed.
    End,
    // The poster for a piece.
    Piece,
}

// What one who takes part does, with what it has at the hub.
#[derive(Drop)]
enum Part<L: Naming> {
    // Posts so many jobs.
    Post(Poster<Note, L>, u64),
    Close(Poster<Note, L>),
    // Takes the job that is listed, and puts it back as its own piece.
    Put(Seat<Note, L>),
    WaitJob(Seat<Note, L>),
    WaitHome(Poster<Note, L>),
}

impl<L: Naming> Part<L> {
    fn waits(&self) -> bool {
        matches!(self, Part::WaitJob(_) | Part::WaitHome(_))
    }
}

// How many wait, how many of them were about to, and how many went on.
#[derive(Drop)]
struct Watch {
    waiting: u64,
    begun: AtomicU64,
    ended: AtomicU64,
}

impl Watch {
    fn of(waiting: u64) -> Watch {
        Watch {
            waiting,
            begun: AtomicU64::new(0),
            ended: AtomicU64::new(0),
        }
    }

    // Looks until all are counted, or gives up; answers whether all are.
    fn counts_all(&self, count: &AtomicU64) -> bool {
        for _ in 0..LOOKS {
            if count.load(SeqCst) >= self.waiting {
                return true;
            }
            spin_loop();
        }
        false
    }

    // Gives them time to fall asleep; answers whether none of them went on.
    fn all_stay(&self) -> bool {
        for _ in 0..REST {
            if self.ended.load(SeqCst) > 0 {
                return false;
            }
            spin_loop();
        }
        true
    }
}

#[test]
fn a_seat_that_waits_is_woken_for_the_first_job(rt: HostRuntime) -> Result<(), Fail> {
    meet::<Brand, _>(
        &rt,
        rt.alloc(),
        Opened::new(rt.alloc(), 1, 1)?,
        Scene::First,
    )
}

#[test]
fn a_seat_that_waits_is_woken_for_a_second_job(rt: HostRuntime) -> Result<(), Fail> {
    meet::<Brand, _>(&rt, rt.alloc(), Opened::new(rt.alloc(), 1, 2)?, Scene::Job)
}

#[test]
fn all_seats_that_wait_are_woken_at_the_closing(rt: HostRuntime) -> Result<(), Fail> {
    meet::<Brand, _>(&rt, rt.alloc(), Opened::new(rt.alloc(), 2, 1)?, Scene::End)
}

#[test]
fn a_poster_that_waits_is_woken_for_a_piece(rt: HostRuntime) -> Result<(), Fail> {
    meet::<Brand, _>(
        &rt,
        rt.alloc(),
        Opened::new(rt.alloc(), 1, 1)?,
        Scene::Piece,
    )
}

// Lets all take part at one hub, each on a thread of its own.
fn meet<L: Naming + Send + Sync, R: Threads + Wait + Abort + Sync>(
    rt: &R,
    alloc: Global,
    opened: Opened<Note>,
    scene: Scene,
) -> Result<(), Fail>
    requires { (opened.name ≡ L.name) × (opened.parts ≡ L.parts)
        × (opened.table ≡ L.table) }
{
    let (hub, by, seats) = Hub::<Note, Note, L>::new(alloc, opened)?;
    let mut parts = parts_of(rt, alloc, &hub, by, seats, scene)?;
    let count = parts.len();
    assert!(rt; count > 1);
    let waiting = parts.iter().filter(|part| part.waits()).count();
    let watch = Watch::of(waiting as u64);
    thread::for_each_mut(
        rt,
        &mut parts,
        count,
        &|_: usize, part: &mut Part<L>| { take_part(rt, &hub, &watch, part) },
    );
    Ok(())
}

// Who takes part: those who wait last, since where no thread can be made all are called in turn.
fn parts_of<L: Naming, R: Wait + Abort>(
    rt: &R,
    alloc: Global,
    hub: &Hub<Note, Note, L>,
    by: Poster<Note, L>,
    seats: Vec<Seat<Note, L>>,
    scene: Scene,
) -> Result<Vec<Part<L>>, Fail> {
    let mut by = by;
    let mut parts = Vec::new(alloc);
    match scene {
        Scene::First => parts.push(Part::Post(by, 1))?,
        Scene::Job => parts.push(Part::Post(by, 2))?,
        Scene::End => parts.push(Part::Close(by))?,
        Scene::Piece => {
            post(rt, hub, &mut by, 1);
            for seat in seats {
                parts.push(Part::Put(seat))?;
            }
            parts.push(Part::WaitHome(by))?;
            return Ok(parts);
        }
    }
    for seat in seats {
        parts.push(Part::WaitJob(seat))?;
    }
    Ok(parts)
}

// Who waits is counted before and behind it. Who wakes does so once all wait, and then looks whether all went on.
fn take_part<L: Naming, R: Wait + Abort>(
    rt: &R,
    hub: &Hub<Note, Note, L>,
    watch: &Watch,
    part: &mut Part<L>,
) {
    if part.waits() {
        watch.begun.fetch_add(1, SeqCst);
        act(rt, hub, part);
        watch.ended.fetch_add(1, SeqCst);
    } else {
        assert!(rt; watch.counts_all(&watch.begun));
        assert!(rt; watch.all_stay());
        act(rt, hub, part);
        assert!(rt; watch.counts_all(&watch.ended));
    }
}

fn act<L: Naming, R: Wait + Abort>(rt: &R, hub: &Hub<Note, Note, L>, part: &mut Part<L>) {
    match part {
        Part::Post(by, count) => {
            for ticket in 1..=*count {
                post(rt, hub, by, ticket);
            }
        }
        Part::Close(by) => {
            assert!(rt; !by.closed());
            hub.close(rt, by);
        }
        Part::Put(seat) => put(rt, hub, seat),
        Part::WaitJob(seat) => hub.wait_job(rt, seat, FEW_LOOKS),
        Part::WaitHome(by) => {
            assert!(rt; by.waiting() > 0);
            hub.wait_home(rt, by);
        }
    }
}

// Posts a job of this ticket.
pub(crate) fn post<L: Naming, R: Wait + Abort>(
    rt: &R,
    hub: &Hub<Note, Note, L>,
    by: &mut Poster<Note, L>,
    ticket: u64,
) {
    assert!(rt; by.last() < ticket);
    assert!(rt; by.waiting() < by.room());
    assert!(rt; !by.closed());
    assert!(rt; hub.post(rt, by, Note { ticket }).is_ok());
}

// Takes the job that is listed, and puts it back as its own piece.
fn put<L: Naming, R: Wait + Abort>(rt: &R, hub: &Hub<Note, Note, L>, seat: &mut Seat<Note, L>) {
    assert!(rt; seat.holding().is_none());
    if let Taken::Job(job) = hub.take(rt, seat) {
        hub.put(rt, seat, job);
    }
}
