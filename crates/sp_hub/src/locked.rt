//! The calls on the state behind a hub's lock, each with what it does to that state.
ghost use Rattle.std.specs.Prelude.{◌≡◌, ◌<◌, true, false, [], None, IfErr, IfOk, if◌then◌else◌, is_ok, length, ◌==◌, ◌&&◌, ◌↔◌, not};
ghost use Rattle.std.specs.List.{count_by};
ghost use Rattle.sp_hub.specs.History.{IsLegal, is_call};
ghost use Rattle.sp_hub.specs.Calls.{after_post, after_take, after_close, oldest, posts, takes};

use crate::Memory;
use crate::entry::HubEntry;
use crate::named::Named;
use crate::naming::Naming;
use crate::poster::Poster;
use crate::seat::Seat;
use crate::taken::Taken;
use std::alloc::Global;
use std::collections::VecDeque;
use std::marker::Model;
use std::sync::ledger::{Book, Share};

/// The state behind a hub's lock. Contracts see an `Exchange`.
#[derive(Drop)]
pub struct Locked<J: Named, L: Naming> {
    jobs: VecDeque<J>,
    closed: bool,
    history: Vec<HubEntry>,
    book: Book<L>,
}

impl<J: Named, L: Naming> Model for Locked<J, L> {
    ghost use Rattle.std.specs.Prelude.{vec_capacity};
    ghost use Rattle.sp_hub.specs.State.{Exchange, Keeps};

    ghost Value = { Exchange J };

    ghost view = { λ s. record { jobs = s.jobs.items; closed = s.closed; entries = s.history.items } };

    ghost invariant = { λ s. Keeps J.ticket_of s.jobs.items s.closed s.history.items s.book.total (vec_capacity s.history) };
}

impl<J: Named, L: Naming> Locked<J, L> {
    /// An empty state, with room for Close.
    pub(crate) fn new(alloc: Global, book: Book<L>) -> Result<Locked<J, L>, Memory>
        requires { book.total ≡ 0 }
        ensures { IfOk result (λ s. s ≡ record { jobs = []; closed = false; entries = [] }) }
    {
        let history = Vec::with_capacity(alloc, 1)?;
        Ok(Locked {
            jobs: VecDeque::new(alloc),
            closed: false,
            history,
            book,
        })
    }

    /// Whether no job is listed and more may come.
    pub(crate) fn is_idle(&self) -> bool
        ensures { result ≡ ((length self.now.jobs == 0) && not self.now.closed) }
    {
        self.jobs.is_empty() && !self.closed
    }

    /// How many jobs are listed.
    pub(crate) fn listed(&self) -> usize
        ensures { result ≡ length self.now.jobs }
    {
        self.jobs.len()
    }

    /// The history, beside the share that has every part of the ledger.
    pub(crate) fn into_entries(self, all: &mut Share<L>) -> Vec<HubEntry>
        requires { all.old.parts ≡ L.parts }
        ensures entries { result.items ≡ self.entries }
        ensures legal { IsLegal result.items }
        ensures counted { count_by is_call result.items ≡ all.old.amount }
    {
        let Locked {
            jobs: _,
            closed: _,
            history,
            mut book,
        } = self;
        book.audit(all);
        history
    }

    /// Lists a job. It makes the room in the history that the job takes later, so that `take` needs no more. `Err` is
    /// want of memory.
    pub fn post<P: Named>(&mut self, by: &mut Poster<P, L>, job: J) -> Result<(), J>
        requires ticket { by.old.last < J.ticket_of job }
        requires room { by.old.waiting < by.old.room }
        requires open { by.old.closed ≡ false }
        ensures state { self.new
            ≡ (if is_ok result then after_post self.old job (J.ticket_of job) else self.old) }
        ensures by { by.new ≡ (if is_ok result then posts by.old (J.ticket_of job) else by.old) }
        ensures back { IfErr result (λ j. j ≡ job) }
    {
        // Its own entry, that of the job's taking, and Close, beside the takings of the jobs that are listed.
        let spare = self.jobs.len().saturating_add(3);
        if self.history.reserve(spare).is_err() || self.jobs.reserve(1).is_err() {
            return Err(job);
        }
        let ticket = job.ticket();
        self.jobs.push_back_reserved(job);
        self.history.push_reserved(HubEntry::Post { ticket });
        by.tally.count(&mut self.book);
        by.last = ticket;
        by.waiting += 1;
        Ok(())
    }

    /// Gives the seat the oldest job.
    pub fn take<P: Named>(&mut self, seat: &mut Seat<P, L>) -> Taken<J>
        requires { seat.old.holding ≡ None }
        ensures answer { result ≡ oldest self.old.jobs self.old.closed }
        ensures state { self.new ≡ after_take J.ticket_of seat.old.number self.old }
        ensures seat { seat.new ≡ takes J.ticket_of seat.old result }
    {
        match self.jobs.pop_front() {
            Some(job) => {
                let ticket = job.ticket();
                let number = seat.number;
                self.history.push_reserved(HubEntry::Take {
                    seat: number,
                    ticket,
                });
                seat.tally.count(&mut self.book);
                seat.holding = Some(ticket);
                seat.over = false;
                Taken::Job(job)
            }
            None => {
                seat.over = self.closed;
                if self.closed {
                    Taken::Closed
                } else {
                    Taken::Empty
                }
            }
        }
    }

    /// Closes the exchange. Jobs that are listed can still be taken.
    pub fn close<P: Named>(&mut self, by: &mut Poster<P, L>)
        requires { by.old.closed ≡ false }
        ensures state { self.new ≡ after_close self.old }
        ensures by { by.new ≡ record by.old { closed = true } }
    {
        if !self.closed {
            self.history.push_reserved(HubEntry::Close);
            self.closed = true;
        }
        by.closed = true;
    }
}
