ghost use Rattle.std.specs.Prelude.{◌≡◌, ◌≤◌, ◌-◌, ◌+◌, []};
ghost use Rattle.crossbeam_queue.specs.Passes.{view as known};
ghost use Rattle.sp_hub.specs.Calls.{fresh_poster};
ghost use Rattle.sp_hub.specs.WayHome.{poster};

use crate::named::Named;
use crate::naming::Naming;
use crate::tally::Tally;
use crate::way::WayPass;
use std::marker::Model;
use std::sync::ledger::Share;

/// The one who posts jobs and collects pieces. Contracts see a `Posting`.
#[derive(Drop)]
pub struct Poster<P: Named, L: Naming> {
    pub(crate) last: u64,
    pub(crate) waiting: u32,
    room: u32,
    pub(crate) closed: bool,
    pub(crate) tally: Tally<L>,
    // it knows what was collected, and that each seat of the hub was made
    pub(crate) pass: WayPass<P>,
}

impl<P: Named, L: Naming> Model for Poster<P, L> {
    ghost use Rattle.std.specs.Prelude.{◌≡◌, ◌≤◌, ◌+◌, []};
    ghost use Rattle.crossbeam_queue.specs.Passes.{view as known};
    ghost use Rattle.sp_hub.specs.State.{Posting};
    ghost use Rattle.sp_hub.specs.WayHome.{poster};

    ghost Value = { Posting };

    ghost view = { λ p. record { last = p.last; waiting = p.waiting; room = p.room; closed = p.closed; calls = p.tally; got = (known p.pass).got } };

    ghost invariant = { λ p. (p.waiting ≤ p.room) × (p.room ≤ 17) × (p.waiting ≤ p.tally) × (p.pass.table_id ≡ L.table) × (p.pass.me.1 ≡ []) × (known p.pass ≡ poster (known p.pass).made (known p.pass).got []) × ((known p.pass).made + 1 ≡ L.parts) };
}

impl<P: Named, L: Naming> Poster<P, L> {
    pub(crate) fn new(room: u32, share: Share<L>, pass: WayPass<P>) -> Poster<P, L>
        requires room { room ≤ 17 }
        requires share { (share.parts ≡ 1) × (share.amount ≡ 0) }
        requires pass { (pass.table_id ≡ L.table) × (pass.me.1 ≡ []) }
        requires knows { known pass ≡ poster (known pass).made [] [] }
        requires made { (known pass).made + 1 ≡ L.parts }
        ensures { result ≡ fresh_poster room }
    {
        Poster {
            last: 0,
            waiting: 0,
            room,
            closed: false,
            tally: Tally::new(share),
            pass,
        }
    }

    /// Its part of the ledger, and its pass.
    pub(crate) fn into_parts(self) -> (Share<L>, WayPass<P>)
        ensures part { result.0.parts ≡ 1 }
        ensures amount { result.0.amount ≡ self.calls }
        ensures pass { (result.1.table_id ≡ L.table) × (result.1.me.1 ≡ []) }
        ensures knows { known result.1 ≡ poster (known result.1).made self.got [] }
        ensures made { (known result.1).made + 1 ≡ L.parts }
    {
        (self.tally.into_share(), self.pass)
    }

    /// The ticket that was posted last.
    pub fn last(&self) -> u64
        ensures { result ≡ self.now.last }
    {
        self.last
    }

    /// How many tickets are posted and not collected.
    pub fn waiting(&self) -> u32
        ensures waiting { result ≡ self.now.waiting }
        ensures most { result ≤ self.now.room }
    {
        self.waiting
    }

    /// How many tickets may be so.
    pub fn room(&self) -> u32
        ensures { result ≡ self.now.room }
    {
        self.room
    }

    /// Whether it closed its hub.
    pub fn closed(&self) -> bool
        ensures { result ≡ self.now.closed }
    {
        self.closed
    }

    /// How many entries of the history are its own, Close aside.
    pub fn calls(&self) -> u64
        ensures { result ≡ self.now.calls }
    {
        self.tally.calls()
    }

    /// How many tickets it posted and does not wait for any more.
    pub(crate) fn collected(&self) -> u64
        ensures { result ≡ self.now.calls - self.now.waiting }
    {
        self.tally.calls() - u64::from(self.waiting)
    }
}
