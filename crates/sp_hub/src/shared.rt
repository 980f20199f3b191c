//! What stands behind a hub's lock.
ghost use Rattle.std.specs.Prelude.{◌≡◌, ◌+◌, ◌-◌, ◌^◌, ◌<◌, ◌≤◌, ◌↔◌, ◌&&◌, true, false, None, IfErr, if◌then◌else◌, is_ok, length, min, nat_lt, not, ◌==◌};
ghost use Rattle.std.specs.List.{count_by};
ghost use Rattle.sp_hub.specs.History.{IsLegal, is_call};
ghost use Rattle.sp_hub.specs.Calls.{after_close, after_post, after_take, oldest, posts, takes};
ghost use Rattle.sp_hub.specs.Waking.{is_to_wake, oldest_spare, woken};

use crate::entry::HubEntry;
use crate::locked::Locked;
use crate::named::Named;
use crate::naming::Naming;
use crate::poster::Poster;
use crate::seat::Seat;
use crate::taken::Taken;
use std::marker::Model;
use std::sync::ledger::Share;

/// The state, how many wait for it to change, how many seats were woken and are on their way to a job, and how many
/// pieces came home so far. All stand behind one lock, so that nobody sleeps through a change: who finds nothing to do
/// is counted while it holds the lock under which it looked, and looks again whenever it wakes; who changes the state
/// reads the counts while it holds the lock under which it did so. A piece is counted behind its push: where the poster
/// finds no more counted than it collected, one that is pushed and not counted yet wakes it when it is. So a call of
/// the system is made only where somebody waits. The counts stop at their greatest number, which takes more waiters
/// than there can be threads, and more pieces than the queue ever takes.
///
/// A seat is on its way from its waking until a job is taken, by whichever seat: so never more are than jobs are
/// listed, and for a job that is left to one of them a seat is awake. Contracts see a `Guarded`.
#[derive(Drop)]
pub(crate) struct Shared<J: Named, L: Naming> {
    state: Locked<J, L>,
    idle_seats: u32,
    coming: u32,
    idle_posters: u32,
    arrived: u64,
}

impl<J: Named, L: Naming> Model for Shared<J, L> {
    ghost use Rattle.sp_hub.specs.Waking.{AreAwaited, Guarded};

    ghost Value = { Guarded J };

    ghost view = { λ s. record { state = s.state; idle_seats = s.idle_seats; coming = s.coming; idle_posters = s.idle_posters; arrived = s.arrived } };

    ghost invariant = { λ s. AreAwaited s.state.jobs s.coming };
}

impl<J: Named, L: Naming> Shared<J, L> {
    /// No job is listed, nobody waits yet, and nothing came home.
    pub(crate) fn new(state: Locked<J, L>) -> Shared<J, L>
        ensures { result
            ≡ record { state = state; idle_seats = 0; coming = 0; idle_posters = 0; arrived = 0 } }
    {
        Shared {
            state,
            idle_seats: 0,
            coming: 0,
            idle_posters: 0,
            arrived: 0,
        }
    }

    /// Lists a job, and answers whether a seat is to be woken for it: where more wait than are on their way. It is on
    /// its way then.
    pub(crate) fn post<P: Named>(&mut self, by: &mut Poster<P, L>, job: J) -> (Result<(), J>, bool)
        requires ticket { by.old.last < J.ticket_of job }
        requires room { by.old.waiting < by.old.room }
        requires open { by.old.closed ≡ false }
        ensures by { by.new ≡ (if is_ok result.0 then posts by.old (J.ticket_of job) else by.old) }
        ensures back { IfErr result.0 (λ j. j ≡ job) }
        ensures wakes { result.1 ≡ (is_ok result.0 && is_to_wake self.old) }
        ensures listed { self.new ≡ record self.old {
          state = if is_ok result.0
              then after_post self.old.state job (J.ticket_of job) else self.old.state;
          coming = woken self.old.coming result.1;
        } }
    {
        let answer = self.state.post(by, job);
        let wakes = answer.is_ok() && self.coming < self.idle_seats;
        if wakes {
            self.coming += 1;
        }
        (answer, wakes)
    }

    /// Lists a job for which no seat is to be woken.
    pub(crate) fn post_quietly<P: Named>(&mut self, by: &mut Poster<P, L>, job: J) -> Result<(), J>
        requires ticket { by.old.last < J.ticket_of job }
        requires room { by.old.waiting < by.old.room }
        requires open { by.old.closed ≡ false }
        ensures by { by.new ≡ (if is_ok result then posts by.old (J.ticket_of job) else by.old) }
        ensures back { IfErr result (λ j. j ≡ job) }
        ensures listed { self.new ≡ record self.old {
          state = if is_ok result
              then after_post self.old.state job (J.ticket_of job) else self.old.state;
        } }
    {
        self.state.post(by, job)
    }

    /// Gives the seat the oldest job: of the seats on their way, one fewer is.
    pub(crate) fn take<P: Named>(&mut self, seat: &mut Seat<P, L>) -> Taken<J>
        requires { seat.old.holding ≡ None }
        ensures answer { result ≡ oldest self.old.state.jobs self.old.state.closed }
        ensures taken { self.new ≡ record self.old {
          state = after_take J.ticket_of seat.old.number self.old.state;
          coming = self.old.coming - 1;
        } }
        ensures seat { seat.new ≡ takes J.ticket_of seat.old result }
    {
        let answer = self.state.take(seat);
        self.coming = self.coming.saturating_sub(1);
        answer
    }

    /// Gives the seat the oldest job where more are listed than seats are on their way.
    pub(crate) fn take_spare<P: Named>(&mut self, seat: &mut Seat<P, L>) -> Taken<J>
        requires { seat.old.holding ≡ None }
        ensures answer { result ≡ oldest_spare self.old }
        ensures taken { self.new ≡ (if nat_lt self.old.coming (length self.old.state.jobs)
            then record self.old {
              state = after_take J.ticket_of seat.old.number self.old.state;
            } else self.old) }
        ensures seat { seat.new ≡ takes J.ticket_of seat.old result }
    {
        if self.state.listed() > self.coming as usize {
            self.state.take(seat)
        } else {
            seat.over = false;
            Taken::Empty
        }
    }

    /// Closes the state.
    pub(crate) fn close<P: Named>(&mut self, by: &mut Poster<P, L>)
        requires { by.old.closed ≡ false }
        ensures closed { self.new ≡ record self.old { state = after_close self.old.state } }
        ensures by { by.new ≡ record by.old { closed = true } }
    {
        self.state.close(by);
    }

    /// Whether no job is listed and more may come.
    pub(crate) fn is_idle(&self) -> bool
        ensures { result
            ≡ ((length self.now.state.jobs == 0) && not self.now.state.closed) }
    {
        self.state.is_idle()
    }

    /// Counts a piece that came home, and answers whether the poster is to be woken for it.
    pub(crate) fn piece_came(&mut self) -> bool
        ensures counted { self.new ≡ record self.old {
          arrived = min (self.old.arrived + 1) (2 ^ 64 - 1);
        } }
        ensures wakes { (result ≡ true) ↔ (0 < self.old.idle_posters) }
    {
        self.arrived = self.arrived.saturating_add(1);
        self.idle_posters > 0
    }

    /// Whether no piece is home, but for those that were collected.
    pub(crate) fn none_home(&self, collected: u64) -> bool
        ensures { (result ≡ true) ↔ (self.now.arrived ≤ collected) }
    {
        self.arrived <= collected
    }

    /// The history, beside the share that has every part of the ledger.
    pub(crate) fn into_entries(self, all: &mut Share<L>) -> Vec<HubEntry>
        requires { all.old.parts ≡ L.parts }
        ensures legal { IsLegal result.items }
        ensures counted { count_by is_call result.items ≡ all.old.amount }
    {
        let Shared {
            state,
            idle_seats: _,
            coming: _,
            idle_posters: _,
            arrived: _,
        } = self;
        state.into_entries(all)
    }

    /// A seat is about to wait for a job.
    pub(crate) fn seat_waits(&mut self)
        ensures { self.new ≡ record self.old {
          idle_seats = min (self.old.idle_seats + 1) (2 ^ 32 - 1);
        } }
    {
        self.idle_seats = self.idle_seats.saturating_add(1);
    }

    /// A seat waits no more.
    pub(crate) fn seat_goes_on(&mut self)
        ensures { self.new ≡ record self.old { idle_seats = self.old.idle_seats - 1 } }
    {
        self.idle_seats = self.idle_seats.saturating_sub(1);
    }

    /// The poster is about to wait for a piece.
    pub(crate) fn poster_waits(&mut self)
        ensures { self.new ≡ record self.old {
          idle_posters = min (self.old.idle_posters + 1) (2 ^ 32 - 1);
        } }
    {
        self.idle_posters = self.idle_posters.saturating_add(1);
    }

    /// The poster waits no more.
    pub(crate) fn poster_goes_on(&mut self)
        ensures { self.new ≡ record self.old { idle_posters = self.old.idle_posters - 1 } }
    {
        self.idle_posters = self.idle_posters.saturating_sub(1);
    }
}
