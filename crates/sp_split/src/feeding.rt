// A driver is fed from an intake.
ghost use Rattle.std.specs.Prelude.{◌≡◌, ◌≤◌, ◌+◌, ◌++◌, ◌↔◌, ℕ, true, false, List, IfOk, IsTrue, OnOk, OnErr, length};
ghost use Rattle.sp_plan.specs.declared.event.Event as event;
ghost use Rattle.sp_ports.specs.Giving.{given_by, AreGood};
ghost use Rattle.sp_split.specs.Stages.{AllFinished, AskedOn, FedOn, IsFed, IsTakenIn};
ghost use Rattle.sp_split.specs.declared.feeding.Fed.TheVariants as f;

use crate::Memory;
use crate::driver::Driver;
use sp_core::Core;
use sp_ports::{Intake, Next, Stop};
use std::alloc::{AllocError, Global};

/// Why feeding ended.
#[derive(Clone, Copy, Drop)]
pub(crate) enum Fed {
    /// There may be more events.
    More,
    /// There may be more events, and none was at hand.
    Dry,
    /// The end of input was reached, and told to the core.
    End,
    /// The intake stopped before, for this reason.
    Stop(Stop),
}

/// Whether every window that is closed is finished.
pub(crate) fn all_finished(core: &Core) -> bool
    ensures { IsTrue result ↔ AllFinished core.now }
{
    core.finished() == core.windows().closed()
}

// Takes in what an intake answered: an event is fed, and of the end the core is told. After want of memory the event is
// lost.
fn take_in<D: Driver>(alloc: Global, driver: &mut D, answer: Next) -> Result<Fed, Memory>
    requires ready { D.ready driver.old }
    requires unended { (D.core driver.old).machine.ended ≡ false }
    requires good { AreGood (D.core driver.old).plan
        ((D.core driver.old).machine.events ++ given_by answer) }
    ensures on { FedOn (D.core driver.old) (D.core driver.new) }
    ensures fed { OnOk result ((D.core driver.new).machine.events
        ≡ (D.core driver.old).machine.events ++ given_by answer) }
    ensures err { OnErr result ((D.core driver.new).machine.events
        ≡ (D.core driver.old).machine.events) }
    ensures is { IfOk result (λ fed. IsTakenIn answer fed (D.core driver.new).machine.ended) }
    ensures unended { OnErr result ((D.core driver.new).machine.ended ≡ false) }
    ensures ready { D.ready driver.new }
    ensures terms { (D.instances driver.new ≡ D.instances driver.old)
        × (D.batch driver.new ≡ D.batch driver.old)
        × (D.team driver.new ≡ D.team driver.old) }
{
    match answer {
        Next::Event(event) => {
            driver.feed(alloc, event)?;
            Ok(Fed::More)
        }
        Next::End => {
            driver.end();
            Ok(Fed::End)
        }
        Next::Stop(stop) => Ok(Fed::Stop(stop)),
        Next::Memory => Err(AllocError),
    }
}

// Feeds the next event, if there is one: one that is at hand, or else, where it may ask, one that comes. After want of
// memory an event may be lost.
fn feed_next<D: Driver, I: Intake>(
    alloc: Global,
    driver: &mut D,
    may_ask: bool,
    intake: &mut I,
) -> Result<Fed, Memory>
    requires ready { D.ready driver.old }
    requires unended { (D.core driver.old).machine.ended ≡ false }
    requires given { (from : I) × (I.plan from ≡ (D.core driver.old).plan)
        × I.gave from (D.core driver.old).machine.events intake.old }
    ensures on { FedOn (D.core driver.old) (D.core driver.new) }
    ensures given { OnOk result ((from : I)
        → I.gave from (D.core driver.old).machine.events intake.old
        → I.gave from (D.core driver.new).machine.events intake.new) }
    ensures asked { OnOk result (AskedOn I.asked (may_ask ≡ true)
        (D.core driver.old).machine.events (D.core driver.new).machine.events
        intake.old intake.new) }
    ensures lost { OnErr result ((lost : List event.Event)
        × ((from : I) → I.gave from (D.core driver.old).machine.events intake.old
        → I.gave from ((D.core driver.new).machine.events ++ lost) intake.new)
        × AskedOn I.asked (may_ask ≡ true) (D.core driver.old).machine.events
        ((D.core driver.new).machine.events ++ lost) intake.old intake.new) }
    ensures is { IfOk result (λ fed.
        IsFed I.ended I.stops I.cause intake.old intake.new fed
        (D.core driver.new).machine.ended) }
    ensures few { length (D.core driver.new).machine.events
        ≤ length (D.core driver.old).machine.events + 1 }
    ensures ready { D.ready driver.new }
    ensures terms { (D.instances driver.new ≡ D.instances driver.old)
        × (D.batch driver.new ≡ D.batch driver.old)
        × (D.team driver.new ≡ D.team driver.old) }
    ensures same { (I.plan intake.new ≡ I.plan intake.old)
        × (I.token intake.new ≡ I.token intake.old) }
{
    if may_ask {
        return take_in(alloc, driver, intake.next(alloc));
    }
    match intake.at_hand(alloc) {
        Some(answer) => take_in(alloc, driver, answer),
        None => Ok(Fed::Dry),
    }
}

// Feeds the next events, at most a batch, of an input that has not ended. The intake is asked for the first one where
// every closed window is finished; all others are at hand.
fn feed_batch<D: Driver, I: Intake>(
    alloc: Global,
    driver: &mut D,
    intake: &mut I,
) -> Result<Fed, Memory>
    requires ready { D.ready driver.old }
    requires unended { (D.core driver.old).machine.ended ≡ false }
    requires given { (from : I) × (I.plan from ≡ (D.core driver.old).plan)
        × I.gave from (D.core driver.old).machine.events intake.old }
    ensures on { FedOn (D.core driver.old) (D.core driver.new) }
    ensures given { OnOk result ((from : I)
        → I.gave from (D.core driver.old).machine.events intake.old
        → I.gave from (D.core driver.new).machine.events intake.new) }
    ensures asked { OnOk result (AskedOn I.asked (AllFinished (D.core driver.old))
        (D.core driver.old).machine.events (D.core driver.new).machine.events
        intake.old intake.new) }
    ensures lost { OnErr result ((lost : List event.Event)
        × ((from : I) → I.gave from (D.core driver.old).machine.events intake.old
        → I.gave from ((D.core driver.new).machine.events ++ lost) intake.new)
        × AskedOn I.asked (AllFinished (D.core driver.old)) (D.core driver.old).machine.events
        ((D.core driver.new).machine.events ++ lost) intake.old intake.new) }
    ensures is { IfOk result (λ fed.
        IsFed I.ended I.stops I.cause intake.old intake.new fed
        (D.core driver.new).machine.ended) }
    ensures few { length (D.core driver.new).machine.events
        ≤ length (D.core driver.old).machine.events + D.batch driver.old }
    ensures ready { D.ready driver.new }
    ensures terms { (D.instances driver.new ≡ D.instances driver.old)
        × (D.batch driver.new ≡ D.batch driver.old)
        × (D.team driver.new ≡ D.team driver.old) }
    ensures same { (I.plan intake.new ≡ I.plan intake.old)
        × (I.token intake.new ≡ I.token intake.old) }
{
    let mut may_ask = all_finished(driver.core());
    for _ in 0..driver.batch() {
        match feed_next(alloc, driver, may_ask, intake)? {
            Fed::More => may_ask = false,
            ended => return Ok(ended),
        }
    }
    Ok(Fed::More)
}

/// Feeds the next events, at most a batch, where the last answer was that there may be more, and else nothing. The
/// outside is asked for an event only where every closed window is finished; and then for one alone. After want of
/// memory the core is fed the first events that were given, and at most one more was given and is lost.
pub(crate) fn feed<D: Driver, I: Intake>(
    alloc: Global,
    driver: &mut D,
    last: Fed,
    intake: &mut I,
) -> Result<Fed, Memory>
    requires ready { D.ready driver.old }
    requires so { (from : I) × (I.plan from ≡ (D.core driver.old).plan)
        × I.gave from (D.core driver.old).machine.events intake.old
        × IsFed I.ended I.stops I.cause from intake.old last (D.core driver.old).machine.ended }
    ensures on { FedOn (D.core driver.old) (D.core driver.new) }
    ensures given { OnOk result ((from : I)
        → I.gave from (D.core driver.old).machine.events intake.old
        → I.gave from (D.core driver.new).machine.events intake.new) }
    ensures asked { OnOk result (AskedOn I.asked ((AllFinished (D.core driver.old))
        × ((D.core driver.old).machine.ended ≡ false))
        (D.core driver.old).machine.events (D.core driver.new).machine.events
        intake.old intake.new) }
    ensures lost { OnErr result ((lost : List event.Event)
        × ((from : I) → I.gave from (D.core driver.old).machine.events intake.old
        → I.gave from ((D.core driver.new).machine.events ++ lost) intake.new)
        × AskedOn I.asked ((AllFinished (D.core driver.old))
        × ((D.core driver.old).machine.ended ≡ false)) (D.core driver.old).machine.events
        ((D.core driver.new).machine.events ++ lost) intake.old intake.new) }
    ensures unended { OnErr result ((D.core driver.old).machine.ended ≡ false) }
    ensures is { IfOk result (λ fed. (from : I)
        → IsFed I.ended I.stops I.cause from intake.old last (D.core driver.old).machine.ended
        → IsFed I.ended I.stops I.cause from intake.new fed (D.core driver.new).machine.ended) }
    ensures few { length (D.core driver.new).machine.events
        ≤ length (D.core driver.old).machine.events + D.batch driver.old }
    ensures ready { D.ready driver.new }
    ensures terms { (D.instances driver.new ≡ D.instances driver.old)
        × (D.batch driver.new ≡ D.batch driver.old)
        × (D.team driver.new ≡ D.team driver.old) }
    ensures same { (I.plan intake.new ≡ I.plan intake.old)
        × (I.token intake.new ≡ I.token intake.old) }
{
    match last {
        Fed::More | Fed::Dry => feed_batch(alloc, driver, intake),
        over => Ok(over),
    }
}
