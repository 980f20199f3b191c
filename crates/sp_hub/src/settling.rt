//! The poster and all seats of a hub are back: what they come to together.
ghost use Rattle.std.specs.Prelude.{◌≡◌, ◌+◌, ◌≤◌, length, sum, vec_len};
ghost use Rattle.std.specs.List.{sum_by};
ghost use Rattle.sp_hub.specs.Collecting.{AreCollectedInOrder, AreNumbered, AreOfSeats, TellPuts};

use crate::named::Named;
use crate::naming::Naming;
use crate::poster::Poster;
use crate::seat::{Leaving, Seat};
use crate::way::{Way, learn, take_back};
use std::sync::ledger::Share;

/// A share of the ledger with all parts, and how many pieces each seat put, by its number.
pub(crate) struct Settled<L: Naming> {
    pub(crate) all: Share<L>,
    pub(crate) puts: Vec<u64>,
}

/// Takes back the passes and the shares of all seats, of which there are as many as the poster made. `puts` has a 0 for
/// each.
pub(crate) fn settle<P: Named, L: Naming>(
    way: &Way<P>,
    by: Poster<P, L>,
    seats: Vec<Seat<P, L>>,
    puts: Vec<u64>,
) -> Settled<L>
    requires table { way.now.table.shared.table_id ≡ L.table }
    requires seats { vec_len puts + 1 ≡ L.parts }
    requires whole { vec_len seats ≡ vec_len puts }
    requires none { sum puts.items ≡ 0 }
    ensures part { result.all.parts ≡ 1 + vec_len seats }
    ensures amount { result.all.amount ≡ by.calls + sum_by (λ s. s.calls) seats.items }
    ensures order { AreCollectedInOrder by.got seats.items }
    ensures len { vec_len result.puts ≡ vec_len puts }
    ensures puts { TellPuts result.puts.items seats.items }
    ensures numbers { AreNumbered (vec_len puts) seats.items }
    ensures known { AreOfSeats (vec_len puts) by.got }
    ensures enough { length by.got ≤ sum result.puts.items }
    ensures fewer { sum result.puts.items ≤ sum_by (λ s. s.calls) seats.items }
{
    let mut seats = seats;
    let mut puts = puts;
    let (mut all, mut pass) = by.into_parts();
    while let Some(seat) = seats.pop() {
        let Leaving {
            number,
            share,
            pass: theirs,
            put,
        } = seat.leave();
        all.merge(share);
        take_back(way, &mut pass, theirs);
        learn(way, &mut pass);
        puts[number as usize] = put;
    }
    learn(way, &mut pass);
    Settled { all, puts }
}
