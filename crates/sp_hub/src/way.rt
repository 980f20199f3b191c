//! The pieces' way home: a queue that no lock guards.
ghost use Rattle.std.specs.Prelude.{◌≡◌, ◌+◌, ◌<◌, true, [], ◌∷◌, ◌++◌, MatchOption, IfOk};
ghost use Rattle.crossbeam_queue.specs.Passes.{view, IsPassOf};
ghost use Rattle.sp_hub.specs.WayHome.{poster, seat, Told};

use crate::Memory;
use crate::knows::{Brings, Fetches, Homeward, Knows, Seating, Tells};
use crate::named::Named;
use crossbeam_queue::{Pass, RuledArrayQueue};
use std::alloc::Global;
use std::sync::Wait;

/// The queue: pieces, each with the number of the seat that put it.
pub(crate) type Way<P> = RuledArrayQueue<(u32, P), Knows, Homeward<P>>;

/// What the poster, or a seat, knows of the queue. It has no bytes.
pub(crate) type WayPass<P> = Pass<(u32, P), Knows>;

/// A way home with room for so many pieces, and the poster's pass.
pub(crate) fn lay<P: Named>(alloc: Global, room: u32) -> Result<(Way<P>, WayPass<P>), Memory>
    requires { 0 < room }
    ensures pass { IfOk result (λ r. IsPassOf r.0 r.1) }
    ensures knows { IfOk result (λ r. view r.1 ≡ poster 0 [] []) }
{
    Way::<P>::ruled(alloc, room as usize)
}

/// A pass for one seat more.
pub(crate) fn make_seat<P: Named>(way: &Way<P>, by: &mut WayPass<P>) -> WayPass<P>
    requires pass { IsPassOf way.now by.old }
    requires early { view by.old ≡ poster (view by.old).made (view by.old).got [] }
    ensures passes { IsPassOf way.now by.new × IsPassOf way.now result }
    ensures by { view by.new ≡ poster ((view by.old).made + 1) (view by.old).got [] }
    ensures made { view result ≡ seat (view by.old).made [] }
{
    way.another::<Seating>(by)
}

/// Puts a piece, and again where the queue gives it back.
pub(crate) fn bring<P: Named, R: Wait>(
    rt: &R,
    way: &Way<P>,
    mine: &mut WayPass<P>,
    number: u32,
    piece: P,
)
    requires pass { IsPassOf way.now mine.old }
    requires sits { view mine.old ≡ seat number (view mine.old).put }
    ensures pass { IsPassOf way.now mine.new }
    ensures put { view mine.new ≡ seat number ((view mine.old).put ++ P.ticket_of piece ∷ []) }
{
    let mut item = (number, piece);
    for _ in rt.forever() {
        match way.push_as::<Brings<P>, R>(rt, mine, item) {
            Ok(()) => return,
            Err(back) => item = back,
        }
    }
    unreachable!()
}

/// Takes the piece that came home first, with its seat.
pub(crate) fn fetch<P: Named, R: Wait>(
    rt: &R,
    way: &Way<P>,
    by: &mut WayPass<P>,
) -> Option<(u32, P)>
    requires pass { IsPassOf way.now by.old }
    requires posts { view by.old
        ≡ poster (view by.old).made (view by.old).got (view by.old).joined }
    ensures pass { IsPassOf way.now by.new }
    ensures got { MatchOption result (view by.new ≡ view by.old)
        (λ x. view by.new ≡ poster (view by.old).made
        ((view by.old).got ++ (x.0, P.ticket_of x.1) ∷ []) (view by.old).joined) }
{
    way.pop_as::<Fetches<P>, R>(rt, by)
}

/// Takes a seat's pass back.
pub(crate) fn take_back<P: Named>(way: &Way<P>, by: &mut WayPass<P>, theirs: WayPass<P>)
    requires passes { IsPassOf way.now by.old × IsPassOf way.now theirs }
    requires posts { view by.old
        ≡ poster (view by.old).made (view by.old).got (view by.old).joined }
    requires sits { view theirs ≡ seat (view theirs).number (view theirs).put }
    ensures pass { IsPassOf way.now by.new }
    ensures joined { view by.new ≡ poster (view by.old).made (view by.old).got
        (((view theirs).number, (view theirs).put) ∷ (view by.old).joined) }
{
    way.absorb::<Seating>(by, theirs);
}

/// Learns of each seat that came back that what was collected of it is the beginning of what it put.
pub(crate) fn learn<P: Named>(way: &Way<P>, by: &mut WayPass<P>)
    requires pass { IsPassOf way.now by.old }
    requires posts { (view by.old).posts ≡ true }
    ensures pass { IsPassOf way.now by.new }
    ensures same { view by.new ≡ view by.old }
    ensures told { (items : _) × Told P.ticket_of (view by.old) items }
{
    way.learn_as::<Tells<P>>(by)
}
