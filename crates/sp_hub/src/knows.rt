//! What the passes of a hub's queue know, and the rule of the queue.
use crate::named::Named;
use crossbeam_queue::protocol::{Join, Lesson, Outcome, Protocol, Split};
use std::collections::LinkedList;
use std::marker::PhantomData;

/// What a pass knows, the poster's or a seat's. No value of it is made.
pub struct Knows {
    pub posts: bool,
    pub made: u32,
    pub got: LinkedList<(u32, u64)>,
    pub joined: LinkedList<(u32, LinkedList<u64>)>,
    pub sits: bool,
    pub number: u32,
    pub put: LinkedList<u64>,
}

/// The rule of the pieces' way home.
pub struct Homeward<P>(PhantomData<P>);

impl<P: Named> Protocol<(u32, P), Knows> for Homeward<P> {
    ghost use Rattle.std.specs.Prelude.{[]};
    ghost use Rattle.sp_hub.specs.WayHome.{poster, Delivers};

    ghost holds = { Delivers P.ticket_of };

    ghost first = { poster 0 [] [] };
}

/// A seat is made, and comes back.
pub struct Seating;

impl Split<Knows> for Seating {
    ghost use Rattle.std.specs.Prelude.{[], ◌+◌};
    ghost use Rattle.sp_hub.specs.WayHome.{poster, seat};

    ghost left = { λ v. poster (v.made + 1) v.got v.joined };

    ghost right = { λ v. seat v.made [] };
}

impl Join<Knows> for Seating {
    ghost use Rattle.std.specs.Prelude.{◌∷◌};
    ghost use Rattle.sp_hub.specs.WayHome.{poster, spent};

    ghost both = { λ v w. poster v.made v.got ((w.number, w.put) ∷ v.joined) };

    ghost spent = { spent };
}

/// A piece is put.
pub struct Brings<P>(PhantomData<P>);

impl<P: Named> Outcome<(u32, P), Knows> for Brings<P> {
    ghost use Rattle.std.specs.Prelude.{◌≡◌, [], ◌∷◌, ◌++◌};
    ghost use Rattle.sp_hub.specs.WayHome.{seat};

    ghost then = { λ v x w. w ≡ seat v.number (v.put ++ P.ticket_of x.1 ∷ []) };
}

impl<P: Named> Lesson<(u32, P), Knows> for Brings<P> {
    ghost use Rattle.std.specs.Prelude.{⊤};

    ghost fact = { λ v items. ⊤ };
}

/// A piece is collected.
pub struct Fetches<P>(PhantomData<P>);

impl<P: Named> Outcome<(u32, P), Knows> for Fetches<P> {
    ghost use Rattle.std.specs.Prelude.{◌≡◌, [], ◌∷◌, ◌++◌};
    ghost use Rattle.sp_hub.specs.WayHome.{poster};

    ghost then = { λ v x w. w ≡ poster v.made (v.got ++ (x.0, P.ticket_of x.1) ∷ []) v.joined };
}

impl<P: Named> Lesson<(u32, P), Knows> for Fetches<P> {
    ghost use Rattle.std.specs.Prelude.{⊤};

    ghost fact = { λ v items. ⊤ };
}

/// What the poster learns of the seats that are back.
pub struct Tells<P>(PhantomData<P>);

impl<P: Named> Lesson<(u32, P), Knows> for Tells<P> {
    ghost use Rattle.sp_hub.specs.WayHome.{Told};

    ghost fact = { Told P.ticket_of };
}
