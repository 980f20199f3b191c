// Instances at a hub, each at a seat of its own.
ghost use Rattle.std.specs.Prelude.{◌≡◌, true, None, length, map, vec_capacity};
ghost use Rattle.std.specs.List.{All};

use crate::office::Office;
use sp_hub::{Hub, Naming, Seat};
use sp_instance::{Gate, work, work_all};
use sp_lend::{Lending, Loan, Reading};
use std::alloc::Global;
use std::marker::Model;
use std::sync::Wait;
use std::thread::Threads;

/// The seats of instances. Contracts see them, and how many there is room for.
#[derive(Drop)]
pub(crate) struct Seating<B: Lending, L: Naming> {
    seats: Vec<Seat<Reading<B>, L>>,
}

impl<B: Lending, L: Naming> Model for Seating<B, L> {
    ghost use Rattle.std.specs.Prelude.{vec_capacity};
    ghost use Rattle.sp_split.specs.Seatings.{Seated};

    ghost Value = { Seated };

    ghost view = { λ c. record { seats = c.seats.items; room = vec_capacity c.seats } };
}

impl<B: Lending, L: Naming> Seating<B, L> {
    pub(crate) fn of(seats: Vec<Seat<Reading<B>, L>>) -> Seating<B, L>
        ensures { result ≡ record { seats = seats.items; room = vec_capacity seats } }
    {
        Seating { seats }
    }

    pub(crate) fn into_seats(self) -> Vec<Seat<Reading<B>, L>>
        ensures seats { result.items ≡ self.seats }
        ensures room { vec_capacity result ≡ self.room }
    {
        let Seating { seats } = self;
        seats
    }
}

/// An instance for each of the seats, each on a thread of its own where one can be made, else one after another,
/// until each is answered that the hub is closed and empty; without a seat nothing is done. No seat is lost,
/// whatever memory is refused, and each stands where it stood.
pub(crate) fn attend_all<
    B: Lending + Send,
    L: Naming + Send + Sync,
    G: Gate,
    R: Threads + Wait + Sync,
>(rt: &R, alloc: Global, hub: &Hub<Loan<B>, Reading<B>, L>, gate: &G, seating: &mut Seating<B, L>)
    requires free { All (λ s. s.holding ≡ None) seating.old.seats }
    ensures len { length seating.new.seats ≡ length seating.old.seats }
    ensures room { seating.new.room ≡ seating.old.room }
    ensures numbers { map (λ s. s.number) seating.new.seats ≡ map (λ s. s.number) seating.old.seats }
    ensures over { All (λ s. s.over ≡ true) seating.new.seats }
{
    work_all(rt, alloc, hub, &mut seating.seats, gate);
}

/// Has each of the seats answered that the hub is closed and empty, one after another and on this thread: what is still
/// listed is done first. No seat is lost, and each stands where it stood.
pub(crate) fn dismiss<B: Lending + Send, L: Naming, G: Gate, R: Wait>(
    office: &Office<'_, B, L, G, R>,
    seating: &mut Seating<B, L>,
)
    requires free { All (λ s. s.holding ≡ None) seating.old.seats }
    ensures len { length seating.new.seats ≡ length seating.old.seats }
    ensures room { seating.new.room ≡ seating.old.room }
    ensures numbers { map (λ s. s.number) seating.new.seats
        ≡ map (λ s. s.number) seating.old.seats }
    ensures over { All (λ s. s.over ≡ true) seating.new.seats }
{
    for seat in seating.seats.iter_mut() {
        work(office.rt, office.alloc, office.hub, seat, office.gate);
    }
}
