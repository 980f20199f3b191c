// What is lent to the thread that serves, and comes back from it.

use sp_plan::Match;
use sp_ports::{Intake, Next, OutFault, Outlet};
use std::alloc::Global;

/// An intake that is lent. Its token tells the reference from others, and the intake.
#[derive(Drop)]
pub(crate) struct LentIntake<'a, I: Intake> {
    pub(crate) inner: &'a mut I,
}

impl<'a, I: Intake> Intake for LentIntake<'a, I> {
    ghost use Rattle.sp_split.specs.Lending.{both};

    ghost plan = { λ l. I.plan l.inner.now };

    ghost token = { λ l. both l.inner.ghost_name (I.token l.inner.now) };

    ghost ended = { λ l. I.ended l.inner.now };

    ghost stops = { λ l. I.stops l.inner.now };

    ghost cause = { λ l. I.cause l.inner.now };

    ghost gave = { λ old events new. I.gave old.inner.now events new.inner.now };

    ghost gave_none = { λ l. I.gave_none l.inner.now };

    ghost good = { λ old events new gave. I.good old.inner.now events new.inner.now gave };

    ghost asked = { λ old before events new. I.asked old.inner.now before events new.inner.now };

    ghost asked_none = { λ l. I.asked_none l.inner.now };

    ghost asked_gave = { λ old before events new asked. I.asked_gave old.inner.now before events new.inner.now asked };

    ghost must_ask = { λ l. I.must_ask l.inner.now };

    fn next(&mut self, alloc: Global) -> Next {
        self.inner.next(alloc)
    }

    fn at_hand(&mut self, alloc: Global) -> Option<Next> {
        self.inner.at_hand(alloc)
    }
}

/// An outlet that is lent. Its token tells the reference from others, and the outlet.
#[derive(Drop)]
pub(crate) struct LentOutlet<'a, O: Outlet> {
    pub(crate) inner: &'a mut O,
}

impl<'a, O: Outlet> Outlet for LentOutlet<'a, O> {
    ghost use Rattle.sp_split.specs.Lending.{both};

    ghost plan = { λ l. O.plan l.inner.now };

    ghost token = { λ l. both l.inner.ghost_name (O.token l.inner.now) };

    ghost state = { λ l. O.state l.inner.now };

    fn put(&mut self, alloc: Global, found: &Match) -> Result<(), OutFault> {
        self.inner.put(alloc, found)
    }
}
