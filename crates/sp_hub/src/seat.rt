ghost use Rattle.std.specs.Prelude.{◌≡◌, ◌≤◌, [], length};
ghost use Rattle.crossbeam_queue.specs.Passes.{view as known};
ghost use Rattle.sp_hub.specs.Calls.{fresh_seat};
ghost use Rattle.sp_hub.specs.WayHome.{seat};

use crate::named::Named;
use crate::naming::Naming;
use crate::tally::Tally;
use crate::way::WayPass;
use std::marker::Model;
use std::sync::ledger::Share;

/// A place at which jobs are done. Contracts see a `Sitting`.
#[derive(Drop)]
pub struct Seat<P: Named, L: Naming> {
    pub(crate) number: u32,
    pub(crate) holding: Option<u64>,
    pub(crate) over: bool,
    pub(crate) tally: Tally<L>,
    // it knows what the seat put
    pub(crate) pass: WayPass<P>,
}

impl<P: Named, L: Naming> Model for Seat<P, L> {
    ghost use Rattle.std.specs.Prelude.{◌≡◌, ◌+◌, [], length};
    ghost use Rattle.crossbeam_queue.specs.Passes.{view as known};
    ghost use Rattle.sp_hub.specs.State.{Sitting, held};
    ghost use Rattle.sp_hub.specs.WayHome.{seat};

    ghost Value = { Sitting };

    ghost view = { λ s. record { number = s.number; holding = s.holding; calls = s.tally; over = s.over; put = (known s.pass).put } };

    ghost invariant = { λ s. (s.pass.table_id ≡ L.table) × (s.pass.me.1 ≡ []) × (known s.pass ≡ seat s.number (known s.pass).put) × (s.tally ≡ length (known s.pass).put + held s.holding) };
}

/// What a seat leaves at the end: its part of the ledger, its pass, and how many pieces it put.
pub(crate) struct Leaving<P: Named, L: Naming> {
    pub(crate) number: u32,
    pub(crate) share: Share<L>,
    pub(crate) pass: WayPass<P>,
    pub(crate) put: u64,
}

impl<P: Named, L: Naming> Seat<P, L> {
    pub(crate) fn new(number: u32, share: Share<L>, pass: WayPass<P>) -> Seat<P, L>
        requires share { (share.parts ≡ 1) × (share.amount ≡ 0) }
        requires pass { (pass.table_id ≡ L.table) × (pass.me.1 ≡ []) }
        requires knows { known pass ≡ seat number [] }
        ensures { result ≡ fresh_seat number }
    {
        Seat {
            number,
            holding: None,
            over: false,
            tally: Tally::new(share),
            pass,
        }
    }

    pub(crate) fn leave(self) -> Leaving<P, L>
        ensures number { result.number ≡ self.number }
        ensures part { result.share.parts ≡ 1 }
        ensures amount { result.share.amount ≡ self.calls }
        ensures pass { (result.pass.table_id ≡ L.table) × (result.pass.me.1 ≡ []) }
        ensures knows { known result.pass ≡ seat self.number self.put }
        ensures put { result.put ≡ length self.put }
        ensures fewer { result.put ≤ self.calls }
    {
        let Seat {
            number,
            holding,
            over: _,
            tally,
            pass,
        } = self;
        let taken = tally.calls();
        let put = if holding.is_some() { taken - 1 } else { taken };
        Leaving {
            number,
            share: tally.into_share(),
            pass,
            put,
        }
    }

    /// Its number, from 0.
    pub fn number(&self) -> u32
        ensures { result ≡ self.now.number }
    {
        self.number
    }

    /// The ticket of the job that it was given and has not put.
    pub fn holding(&self) -> Option<u64>
        ensures { result ≡ self.now.holding }
    {
        self.holding
    }

    /// Whether no job will come: it was answered so when it asked last.
    pub fn is_over(&self) -> bool
        ensures { result ≡ self.now.over }
    {
        self.over
    }

    /// How many entries of the history are its own.
    pub fn calls(&self) -> u64
        ensures { result ≡ self.now.calls }
    {
        self.tally.calls()
    }
}
