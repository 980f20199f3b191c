// A hub with one seat, by hand.
ghost use Rattle.std.specs.Prelude.{◌≡◌, ◌<◌, false, Some, None, IfOk};

use sp_hub::{Hub, HubEntry, Named, Naming, Opened, Poster, Seat, Taken};
use std::alloc::Global;
use std::marker::Brand;
use std::process::Abort;
use std::sync::Wait;
use std::test::*;

// What travels here: a ticket alone.
#[derive(Drop)]
pub(crate) struct Note {
    pub(crate) ticket: u64,
}

impl Named for Note {
    ghost ticket_of = { λ note. note.ticket };

    fn ticket(&self) -> u64 {
        self.ticket
    }
}

#[test]
fn one_seat_by_hand(rt: HostRuntime) -> Result<(), Fail> {
    by_hand::<Brand, _>(&rt, rt.alloc(), Opened::new(rt.alloc(), 1, 1)?)
}

fn by_hand<L: Naming, R: Wait + Abort>(
    rt: &R,
    alloc: Global,
    opened: Opened<Note>,
) -> Result<(), Fail>
    requires ledger { (opened.name ≡ L.name) × (opened.parts ≡ L.parts)
        × (opened.table ≡ L.table) }
    requires one { (opened.seats ≡ 1) × (opened.room ≡ 1) }
{
    let (hub, mut by, mut seats) = Hub::<Note, Note, L>::new(alloc, opened)?;
    let mut seat = seats.pop().ok_or("one seat")?;
    post_first(rt, &hub, &mut by, &mut seat);
    let job = take_it(rt, &hub, &mut by, &mut seat)?;
    bring_home(rt, &hub, &mut by, &mut seat, job)?;
    take_spare(rt, &hub, &mut by, &mut seat)?;
    hub.close(rt, &mut by);
    assert!(rt; matches!(hub.take(rt, &mut seat), Taken::Closed));
    seats.push(seat)?;
    has_history(rt, hub, by, seats)
}

// Posts a job where there was none.
fn post_first<L: Naming, R: Wait + Abort>(
    rt: &R,
    hub: &Hub<Note, Note, L>,
    by: &mut Poster<Note, L>,
    seat: &mut Seat<Note, L>,
)
    requires none { by.old.last ≡ 0 }
    requires room { by.old.waiting < by.old.room }
    requires open { by.old.closed ≡ false }
    requires free { seat.old.holding ≡ None }
    ensures open { by.new.closed ≡ false }
    ensures free { seat.new.holding ≡ None }
{
    assert!(rt; matches!(hub.take(rt, seat), Taken::Empty));
    assert!(rt; matches!(hub.take_spare(rt, seat), Taken::Empty));
    assert!(rt; hub.post(rt, by, Note { ticket: 1 }).is_ok());
}

// Takes the job, which is not home then.
fn take_it<L: Naming, R: Wait + Abort>(
    rt: &R,
    hub: &Hub<Note, Note, L>,
    by: &mut Poster<Note, L>,
    seat: &mut Seat<Note, L>,
) -> Result<Note, Fail>
    requires { seat.old.holding ≡ None }
    ensures open { by.new.closed ≡ by.old.closed }
    ensures held { IfOk result (λ job. seat.new.holding ≡ Some job.ticket) }
{
    let Taken::Job(job) = hub.take(rt, seat) else {
        return Err("a job".into());
    };
    assert!(rt; job.ticket == 1);
    assert!(rt; hub.collect(rt, by).is_none());
    Ok(job)
}

// Puts the job back as its own piece, and collects it.
fn bring_home<L: Naming, R: Wait + Abort>(
    rt: &R,
    hub: &Hub<Note, Note, L>,
    by: &mut Poster<Note, L>,
    seat: &mut Seat<Note, L>,
    job: Note,
) -> Result<(), Fail>
    requires held { seat.old.holding ≡ Some job.ticket }
    ensures free { seat.new.holding ≡ None }
    ensures open { by.new.closed ≡ by.old.closed }
{
    hub.put(rt, seat, job);
    let piece = hub.collect(rt, by).ok_or("a piece")?;
    assert!(rt; piece.ticket == 1);
    Ok(())
}

// Posts a second job, for which no seat is woken, since none waits: it is spare.
fn take_spare<L: Naming, R: Wait + Abort>(
    rt: &R,
    hub: &Hub<Note, Note, L>,
    by: &mut Poster<Note, L>,
    seat: &mut Seat<Note, L>,
) -> Result<(), Fail>
    requires open { by.old.closed ≡ false }
    requires free { seat.old.holding ≡ None }
    ensures open { by.new.closed ≡ false }
    ensures free { seat.new.holding ≡ None }
{
    assert!(rt; by.last() < 2);
    assert!(rt; by.waiting() < by.room());
    assert!(rt; hub.post(rt, by, Note { ticket: 2 }).is_ok());
    let Taken::Job(job) = hub.take_spare(rt, seat) else {
        return Err("a spare job".into());
    };
    assert!(rt; job.ticket == 2);
    hub.put(rt, seat, job);
    assert!(rt; hub.collect(rt, by).is_some());
    Ok(())
}

// Each call that changed the hub stands in its history, in its order.
fn has_history<L: Naming, R: Abort>(
    rt: &R,
    hub: Hub<Note, Note, L>,
    by: Poster<Note, L>,
    seats: Vec<Seat<Note, L>>,
) -> Result<(), Fail> {
    let Ok(history) = hub.finish(by, seats) else {
        return Err("all seats".into());
    };
    let expected = [
        HubEntry::Post { ticket: 1 },
        HubEntry::Take { seat: 0, ticket: 1 },
        HubEntry::Post { ticket: 2 },
        HubEntry::Take { seat: 0, ticket: 2 },
        HubEntry::Close,
    ];
    assert!(rt; history.entries.as_slice() == expected.as_slice());
    assert!(rt; matches!(history.takes.as_slice(), [2]));
    assert!(rt; matches!(history.puts.as_slice(), [2]));
    Ok(())
}
