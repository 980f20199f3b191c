//! The hub: the locked state with its lock.
ghost use Rattle.std.specs.Prelude.{◌≡◌, ℕ, ◌+◌, ◌<◌, ◌≤◌, ◌↔◌, true, false, Some, None, IsOk, IfErr, IfOk, MatchOption, if◌then◌else◌, is_ok, [], length, sum, vec_len, vec_capacity};
ghost use Rattle.std.specs.List.{count_by, sum_by};
ghost use Rattle.sp_hub.specs.History.{IsLegal, is_call, is_take_by};
ghost use Rattle.sp_hub.specs.Calls.{posts, collects, takes, puts, fresh_seats, fresh_poster, by_seat, told_over};
ghost use Rattle.sp_hub.specs.Collecting.{AreCollectedInOrder, AreNumbered, AreOfSeats, TellPuts};

use crate::Memory;
use crate::entry::HubEntry;
use crate::locked::Locked;
use crate::named::Named;
use crate::naming::Naming;
use crate::opened::Opened;
use crate::poster::Poster;
use crate::seat::Seat;
use crate::settling::{Settled, settle};
use crate::shared::Shared;
use crate::taken::Taken;
use crate::way::{Way, bring, fetch, make_seat};
use sp_base::Listed;
use std::alloc::Global;
use std::hint::spin_loop;
use std::marker::Model;
use std::sync::atomic::AtomicU64;
use std::sync::atomic::Ordering::SeqCst;
use std::sync::{Condvar, Mutex, Wait};

// So often a processor rests between two looks of a seat, half a microsecond or so in all.
const RESTS: u32 = 16;

/// What a hub did, with the takes and puts of each seat by its number, and the seats that were told that no job will
/// come.
#[derive(Drop)]
pub struct History {
    /// Each post, each take and the closing, in the order in which the lock was held.
    pub entries: Listed<HubEntry>,
    /// How many jobs each seat took, by its number.
    pub takes: Listed<u64>,
    /// How many pieces each seat put, by its number.
    pub puts: Listed<u64>,
    /// The numbers of the seats whose last answer was that no job will come, in the order in which the seats came back.
    pub over: Listed<u32>,
}

/// An exchange that threads share. Contracts see the number of its seats and its room.
#[derive(Drop)]
pub struct Hub<J: Named, P: Named, L: Naming> {
    way: Way<P>,
    shared: Mutex<Shared<J, L>>,
    // a job was listed, or the hub closed
    listed: Condvar,
    // a piece came home
    home: Condvar,
    // how often a job was listed, or the hub closed: what a seat that looks for a job sees without the lock. Nothing
    // rests on it but how long it looks
    changes: AtomicU64,
    seats: u32,
    room: u32,
    takes: Vec<u64>,
    puts: Vec<u64>,
    over: Vec<u32>,
}

impl<J: Named, P: Named, L: Naming> Model for Hub<J, P, L> {
    ghost use Rattle.std.specs.Prelude.{◌≡◌, ◌≤◌, ◌+◌, [], vec_capacity};
    ghost use Rattle.sp_hub.specs.State.{Extent};

    ghost Value = { Extent };

    ghost view = { λ h. record { seats = h.seats; room = h.room } };

    ghost invariant = { λ h. (h.way.table.shared.table_id ≡ L.table) × (L.parts ≡ h.seats + 1) × (h.takes.items ≡ []) × (h.puts.items ≡ []) × (h.over.items ≡ []) × (h.seats ≤ vec_capacity h.takes) × (h.seats ≤ vec_capacity h.puts) × (h.seats ≤ vec_capacity h.over) };
}

/// What `finish` hands back where a seat is missing.
#[derive(Drop)]
pub struct Unfinished<J: Named, P: Named, L: Naming> {
    pub hub: Hub<J, P, L>,
    pub by: Poster<P, L>,
    pub seats: Vec<Seat<P, L>>,
}

impl<J: Named, P: Named, L: Naming> Hub<J, P, L> {
    /// A hub with its poster, and its seats by number. It takes the room for what `finish` gives.
    pub fn new(
        alloc: Global,
        opened: Opened<P>,
    ) -> Result<(Hub<J, P, L>, Poster<P, L>, Vec<Seat<P, L>>), Memory>
        requires { (opened.name ≡ L.name) × (opened.parts ≡ L.parts) × (opened.table ≡ L.table) }
        ensures hub { IfOk result (λ r. r.0 ≡ record { seats = opened.seats; room = opened.room }) }
        ensures by { IfOk result (λ r. r.1 ≡ fresh_poster opened.room) }
        ensures seats { IfOk result (λ r. r.2.items ≡ fresh_seats opened.seats) }
    {
        let Opened {
            blank,
            way,
            mut pass,
            seats,
            room,
        } = opened;
        let (book, mut rest) = blank.open::<L>();
        let share = rest.split_off(1, 0);
        let mut made = Vec::with_capacity(alloc, seats as usize)?;
        for number in 0..seats {
            let theirs = make_seat(&way, &mut pass);
            made.push_reserved(Seat::new(number, rest.split_off(1, 0), theirs));
        }
        let by = Poster::new(room, share, pass);
        let hub = Hub {
            way,
            shared: Mutex::new(Shared::new(Locked::new(alloc, book)?)),
            listed: Condvar::new(),
            home: Condvar::new(),
            changes: AtomicU64::new(0),
            seats,
            room,
            takes: Vec::with_capacity(alloc, seats as usize)?,
            puts: Vec::with_capacity(alloc, seats as usize)?,
            over: Vec::with_capacity(alloc, seats as usize)?,
        };
        Ok((hub, by, made))
    }

    /// Lists a job, and wakes a seat for it, where more wait than were woken before and are on their way to a job.
    /// `Err` is want of memory.
    pub fn post<R: Wait>(&self, rt: &R, by: &mut Poster<P, L>, job: J) -> Result<(), J>
        requires ticket { by.old.last < J.ticket_of job }
        requires room { by.old.waiting < by.old.room }
        requires open { by.old.closed ≡ false }
        ensures by { by.new ≡ (if is_ok result then posts by.old (J.ticket_of job) else by.old) }
        ensures back { IfErr result (λ j. j ≡ job) }
    {
        let (answer, wakes) = self.shared.lock(rt).post(by, job);
        self.changes.fetch_add(1, SeqCst);
        if wakes {
            self.listed.notify_one();
        }
        answer
    }

    /// Lists a job, and wakes no seat for it: the poster's thread does it, or a seat that is awake. `Err` is want of
    /// memory.
    pub fn post_quietly<R: Wait>(&self, rt: &R, by: &mut Poster<P, L>, job: J) -> Result<(), J>
        requires ticket { by.old.last < J.ticket_of job }
        requires room { by.old.waiting < by.old.room }
        requires open { by.old.closed ≡ false }
        ensures by { by.new ≡ (if is_ok result then posts by.old (J.ticket_of job) else by.old) }
        ensures back { IfErr result (λ j. j ≡ job) }
    {
        let answer = self.shared.lock(rt).post_quietly(by, job);
        self.changes.fetch_add(1, SeqCst);
        answer
    }

    /// Gives the seat the oldest job.
    pub fn take<R: Wait>(&self, rt: &R, seat: &mut Seat<P, L>) -> Taken<J>
        requires { seat.old.holding ≡ None }
        ensures { seat.new ≡ takes J.ticket_of seat.old result }
    {
        self.shared.lock(rt).take(seat)
    }

    /// Gives the seat the oldest job where more are listed than seats are on their way, which were woken for a job: so
    /// what those come for is left to them. Else the answer is that none is there.
    pub fn take_spare<R: Wait>(&self, rt: &R, seat: &mut Seat<P, L>) -> Taken<J>
        requires { seat.old.holding ≡ None }
        ensures { seat.new ≡ takes J.ticket_of seat.old result }
    {
        self.shared.lock(rt).take_spare(seat)
    }

    /// Brings a piece home, with no lock held, and wakes the poster where it waits. Where the queue gives the piece
    /// back it is put again. It is counted once it is home, and the lock is let go before the poster is woken, so
    /// that it needn't wait for it.
    pub fn put<R: Wait>(&self, rt: &R, seat: &mut Seat<P, L>, piece: P)
        requires { seat.old.holding ≡ Some (P.ticket_of piece) }
        ensures { seat.new ≡ puts seat.old (P.ticket_of piece) }
    {
        let number = seat.number;
        bring(rt, &self.way, &mut seat.pass, number, piece);
        seat.holding = None;
        let wakes = self.shared.lock(rt).piece_came();
        if wakes {
            self.home.notify_one();
        }
    }

    /// Gives the poster the piece that came home first, with no lock held. None means that none was home at one
    /// moment of the call.
    pub fn collect<R: Wait>(&self, rt: &R, by: &mut Poster<P, L>) -> Option<P>
        ensures { MatchOption result (by.new ≡ by.old)
            (λ piece. (seat : ℕ) × (by.new ≡ collects by.old seat (P.ticket_of piece))) }
    {
        let (_, piece) = fetch(rt, &self.way, &mut by.pass)?;
        by.waiting = by.waiting.saturating_sub(1);
        Some(piece)
    }

    /// Closes the hub, and wakes every seat that waits. Jobs that are listed can still be taken.
    pub fn close<R: Wait>(&self, rt: &R, by: &mut Poster<P, L>)
        requires { by.old.closed ≡ false }
        ensures { by.new ≡ record by.old { closed = true } }
    {
        self.shared.lock(rt).close(by);
        self.changes.fetch_add(1, SeqCst);
        self.listed.notify_all();
    }

    // Looks so many times whether a job is listed or the hub is closed, some half a microsecond apart; answers whether
    // one look found it so. The lock is asked for only where something changed.
    fn is_seen<R: Wait>(&self, rt: &R, looks: u32) -> bool {
        let mut seen = self.changes.load(SeqCst);
        for _ in 0..looks {
            for _ in 0..RESTS {
                spin_loop();
            }
            let changes = self.changes.load(SeqCst);
            if changes != seen {
                seen = changes;
                if !self.shared.lock(rt).is_idle() {
                    return true;
                }
            }
        }
        false
    }

    /// Returns once a job is listed or the hub is closed. It looks for one so many times before it sleeps, some half a
    /// microsecond apart: to wake takes longer than a look.
    pub fn wait_job<R: Wait>(&self, rt: &R, _seat: &Seat<P, L>, looks: u32) {
        if self.is_seen(rt, looks) {
            return;
        }
        let mut shared = self.shared.lock(rt);
        shared.seat_waits();
        let mut shared = self.listed.wait_while(rt, shared, |s| s.is_idle());
        shared.seat_goes_on();
    }

    /// Returns once a piece is home that was not collected.
    pub fn wait_home<R: Wait>(&self, rt: &R, by: &Poster<P, L>)
        requires { 0 < by.now.waiting }
    {
        let collected = by.collected();
        let mut shared = self.shared.lock(rt);
        shared.poster_waits();
        let mut shared = self.home.wait_while(rt, shared, |s| s.none_home(collected));
        shared.poster_goes_on();
    }

    /// The history, where all seats of this hub are back.
    pub fn finish(
        self,
        by: Poster<P, L>,
        seats: Vec<Seat<P, L>>,
    ) -> Result<History, Unfinished<J, P, L>>
        ensures variant { IsOk result ↔ (vec_len seats ≡ self.seats) }
        ensures legal { IfOk result (λ h. IsLegal h.entries) }
        ensures counted { IfOk result
            (λ h. count_by is_call h.entries ≡ by.calls + sum_by (λ s. s.calls) seats.items) }
        ensures takes { IfOk result (λ h. h.takes ≡ by_seat is_take_by self.seats h.entries) }
        ensures order { IsOk result → AreCollectedInOrder by.got seats.items }
        ensures puts { IfOk result (λ h. (length h.puts ≡ self.seats) × TellPuts h.puts seats.items) }
        ensures numbers { IsOk result → AreNumbered self.seats seats.items }
        ensures known { IsOk result → AreOfSeats self.seats by.got }
        ensures enough { IfOk result (λ h. length by.got ≤ sum h.puts) }
        ensures fewer { IfOk result (λ h. sum h.puts ≤ sum_by (λ s. s.calls) seats.items) }
        ensures over { IfOk result (λ h. h.over ≡ told_over seats.items) }
        ensures back { IfErr result (λ u. (u.hub ≡ self) × (u.by ≡ by) × (u.seats ≡ seats)) }
    {
        if seats.len() != self.seats as usize {
            return Err(Unfinished {
                hub: self,
                by,
                seats,
            });
        }
        let Hub {
            way,
            shared,
            listed: _,
            home: _,
            changes: _,
            seats: count,
            room: _,
            takes,
            puts,
            over,
        } = self;
        let over = told_of(over, seats.as_slice());
        let puts = none_put(puts, count);
        let Settled { mut all, puts } = settle(&way, by, seats, puts);
        let entries = shared.into_inner().into_entries(&mut all);
        let takes = takes_by_seat(takes, entries.as_slice(), count);
        Ok(History {
            entries: Listed::of(entries),
            takes: Listed::of(takes),
            puts: Listed::of(puts),
            over: Listed::of(over),
        })
    }
}

fn told_of<P: Named, L: Naming>(into: Vec<u32>, seats: &[Seat<P, L>]) -> Vec<u32>
    requires { (into.items ≡ []) × (length seats.now ≤ vec_capacity into) }
    ensures { result.items ≡ told_over seats.now }
{
    let mut into = into;
    for seat in seats {
        if seat.is_over() {
            into.push_reserved(seat.number());
        }
    }
    into
}

fn none_put(into: Vec<u64>, count: u32) -> Vec<u64>
    requires { (into.items ≡ []) × (count ≤ vec_capacity into) }
    ensures len { vec_len result ≡ count }
    ensures none { sum result.items ≡ 0 }
{
    let mut into = into;
    for _ in 0..count {
        into.push_reserved(0);
    }
    into
}

fn takes_by_seat(into: Vec<u64>, entries: &[HubEntry], count: u32) -> Vec<u64>
    requires { (into.items ≡ []) × (count ≤ vec_capacity into) }
    ensures { result.items ≡ by_seat is_take_by count entries.now }
{
    let mut into = into;
    for number in 0..count {
        into.push_reserved(takes_of(entries, number));
    }
    into
}

fn takes_of(entries: &[HubEntry], seat: u32) -> u64
    ensures { result ≡ count_by (is_take_by seat) entries.now }
{
    entries.iter().filter(|e| is_take(e, seat)).count() as u64
}

fn is_take(entry: &HubEntry, seat: u32) -> bool
    ensures { result ≡ is_take_by seat entry.now }
{
    match *entry {
        HubEntry::Take {
            seat: by,
            ticket: _,
        } => by == seat,
        _ => false,
    }
}
