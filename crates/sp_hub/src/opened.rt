ghost use Rattle.std.specs.Prelude.{◌≡◌, ◌≤◌, ◌+◌, IfOk};

use crate::Memory;
use crate::named::Named;
use crate::way::{Way, WayPass, lay};
use std::alloc::Global;
use std::marker::Model;
use std::sync::ledger::Blank;

/// A hub that is not named yet: a ledger of as many parts as it has holders, the queue by which pieces come
/// home, and its numbers. It is made before the call that names the hub, since the name is picked by it.
/// Contracts see a `Blueprint`.
#[derive(Drop)]
pub struct Opened<P: Named> {
    pub(crate) blank: Blank,
    pub(crate) way: Way<P>,
    pub(crate) pass: WayPass<P>,
    pub(crate) seats: u32,
    pub(crate) room: u32,
}

impl<P: Named> Model for Opened<P> {
    ghost use Rattle.std.specs.Prelude.{◌≡◌, ◌≤◌, ◌+◌, []};
    ghost use Rattle.crossbeam_queue.specs.Passes.{view as known, IsPassOf};
    ghost use Rattle.sp_hub.specs.State.{Blueprint};
    ghost use Rattle.sp_hub.specs.WayHome.{poster};

    ghost Value = { Blueprint };

    ghost view = { λ o. record { name = o.blank.name; parts = o.blank.parts; table = o.way.table.shared.table_id; seats = o.seats; room = o.room } };

    ghost invariant = { λ o. (o.blank.parts ≡ o.seats + 1) × IsPassOf o.way o.pass × (known o.pass ≡ poster 0 [] []) × (1 ≤ o.seats) × (o.seats ≤ 17) × (1 ≤ o.room) × (o.room ≤ 17) };
}

impl<P: Named> Opened<P> {
    /// For so many seats, 1 to 17, and so many tickets posted and not collected at one time, 1 to 17.
    pub fn new(alloc: Global, seats: u32, room: u32) -> Result<Opened<P>, Memory>
        requires seats { (1 ≤ seats) × (seats ≤ 17) }
        requires room { (1 ≤ room) × (room ≤ 17) }
        ensures seats { IfOk result (λ o. o.seats ≡ seats) }
        ensures room { IfOk result (λ o. o.room ≡ room) }
        ensures parts { IfOk result (λ o. o.parts ≡ seats + 1) }
    {
        let (way, pass) = lay::<P>(alloc, room)?;
        Ok(Opened {
            blank: Blank::new(u64::from(seats) + 1),
            way,
            pass,
            seats,
            room,
        })
    }
}
