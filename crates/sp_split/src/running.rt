// A round of a driver, between an intake and an outlet.
ghost use Rattle.std.specs.Prelude.{◌≡◌, ◌≢◌, ◌≤◌, ◌+◌, IfOk, IfSome, Err, None, OnOk, OnErr, length};
ghost use Rattle.sp_io.specs.Outside.{Rose};
ghost use Rattle.sp_core.specs.Running.{Running};
ghost use Rattle.sp_ports.specs.Taking.{OutletState, Took, TookFirst};
ghost use Rattle.sp_ports.specs.declared.outlet.OutFault.TheVariants as o;
ghost use Rattle.sp_split.specs.Driving.{Drove, FailedWithin, FellShort};
ghost use Rattle.sp_split.specs.Going.{IsGoing};
ghost use Rattle.sp_split.specs.Prompt.{IsPrompt};
ghost use Rattle.sp_split.specs.Stages.{AdvancedWith};
ghost use Rattle.sp_split.specs.Stopping.{IsThrough};
ghost use Rattle.sp_split.specs.Working.{HasWorked};

use crate::driver::Driver;
use crate::feeding::{Fed, all_finished, feed};
use crate::handing::put_windows;
use crate::stopping::why_over;
use crate::{Memory, Why, law};
use sp_core::Emitted;
use sp_ports::{Intake, OutFault, Outlet};
use std::alloc::{AllocError, Global};

// Has the driver work, and puts the matches of the windows that it finished, up to the first one that the outlet doesn't
// take.
fn work_and_put<D: Driver, W: FnOnce(&mut D, Global) -> Result<Vec<Emitted>, Memory>, O: Outlet>(
    alloc: Global,
    driver: &mut D,
    work: W,
    outlet: &mut O,
) -> Result<(), OutFault>
    requires ready { D.ready driver.old }
    requires may { (it : _) → D.ready it.now → W.pre work it alloc }
    requires works { (it : _) (answer : _) (left : _) → D.ready it.now
        → W.post work it alloc answer left
        → HasWorked D.core D.instances D.batch D.team D.relieved D.ready D.came
        it.now left.now answer }
    requires plan { O.plan outlet.old ≡ (D.core driver.old).plan }
    ensures done { OnOk result (AdvancedWith (D.core driver.old) (D.core driver.new)
        (λ matches. Took (O.plan outlet.old) matches (O.state outlet.old) (O.state outlet.new))) }
    ensures failed { result ≡ Err o.Failed
        → AdvancedWith (D.core driver.old) (D.core driver.new)
        (λ matches. FailedWithin (O.plan outlet.old) matches
        (O.state outlet.old) (O.state outlet.new)) }
    ensures rose { result ≡ Err o.Failed
        → Rose (O.state outlet.old).faults (O.state outlet.new).faults }
    ensures short { result ≡ Err o.Memory
        → AdvancedWith (D.core driver.old) (D.core driver.new)
        (λ matches. TookFirst (O.plan outlet.old) matches
        (O.state outlet.old) (O.state outlet.new)) }
    ensures no_fault { result ≢ Err o.Failed
        → (O.state outlet.new).faults ≡ (O.state outlet.old).faults }
    ensures ready { OnOk result (D.ready driver.new) }
    ensures relieved { D.relieved (D.team driver.old) (D.team driver.new) }
    ensures came { D.came driver.new }
    ensures terms { (D.instances driver.new ≡ D.instances driver.old)
        × (D.batch driver.new ≡ D.batch driver.old) }
    ensures same { (O.plan outlet.new ≡ O.plan outlet.old)
        × (O.token outlet.new ≡ O.token outlet.old) }
{
    match work(driver, alloc) {
        Ok(finished) => put_windows(alloc, &finished, outlet),
        Err(AllocError) => Err(OutFault::Memory),
    }
}

/// What a round came to.
#[derive(Clone, Copy, Drop)]
pub(crate) struct RoundEnd {
    /// Why feeding ended in it.
    pub(crate) fed: Fed,
    /// Why the run is over behind it, if it is.
    pub(crate) over: Option<Why>,
}

/// A round: the next events are fed, up to a batch, where the last round's feeding told that there may be more; `work` has
/// the driver work on them, and the matches of the windows that are finished are put. The intake is asked for an event only
/// where every closed window is finished, and so where all their matches were put. The run is over behind it where the
/// intake gives no more and every closed window is finished, or a match was refused, or memory ran out.
pub(crate) fn round<
    D: Driver,
    W: FnOnce(&mut D, Global) -> Result<Vec<Emitted>, Memory>,
    I: Intake,
    O: Outlet,
>(
    alloc: Global,
    driver: &mut D,
    work: W,
    last: Fed,
    intake: &mut I,
    outlet: &mut O,
) -> Result<RoundEnd, Memory>
    requires ready { D.ready driver.old }
    requires may { (it : _) → D.ready it.now → W.pre work it alloc }
    requires works { (it : _) (answer : _) (left : _) → D.ready it.now
        → W.post work it alloc answer left
        → HasWorked D.core D.instances D.batch D.team D.relieved D.ready D.came
        it.now left.now answer }
    requires going { (from : I) × (first : Running) × (old : OutletState)
        × (I.plan from ≡ first.plan)
        × IsGoing I.gave I.asked I.ended I.stops I.cause from intake.old first
        (D.core driver.old) old (O.state outlet.old) last }
    requires plan { O.plan outlet.old ≡ (D.core driver.old).plan }
    ensures goes { IfOk result (λ round. round.over ≡ None
        → (from : I) (first : Running) (old : OutletState)
        → IsGoing I.gave I.asked I.ended I.stops I.cause from intake.old first
        (D.core driver.old) old (O.state outlet.old) last
        → IsGoing I.gave I.asked I.ended I.stops I.cause from intake.new first
        (D.core driver.new) old (O.state outlet.new) round.fed) }
    ensures ended { IfOk result (λ round. IfSome round.over (λ why.
        (from : I) (first : Running) (old : OutletState)
        → IsGoing I.gave I.asked I.ended I.stops I.cause from intake.old first
        (D.core driver.old) old (O.state outlet.old) last
        → Drove (λ events. I.gave from events intake.new) (I.ended intake.new)
        (I.stops from) (I.stops intake.new) (I.cause intake.new)
        first old (O.state outlet.new) (record { core = D.core driver.new; why = why }))) }
    ensures short { OnErr result ((from : I) (first : Running) (old : OutletState)
        → I.plan from ≡ first.plan
        → IsGoing I.gave I.asked I.ended I.stops I.cause from intake.old first
        (D.core driver.old) old (O.state outlet.old) last
        → FellShort (λ events. I.gave from events intake.new) (I.ended intake.new) first.plan old
        (O.state outlet.new)) }
    ensures prompt { (from : I) (first : Running) (old : OutletState)
        → IsGoing I.gave I.asked I.ended I.stops I.cause from intake.old first
        (D.core driver.old) old (O.state outlet.old) last
        → IsPrompt (I.asked from) intake.new first.plan old (O.state outlet.new) }
    ensures few { length (D.core driver.new).machine.events
        ≤ length (D.core driver.old).machine.events + D.batch driver.old }
    ensures ready { IfOk result (λ round. IsThrough round.over → D.ready driver.new) }
    ensures relieved { OnOk result (D.relieved (D.team driver.old) (D.team driver.new)) }
    ensures came { D.came driver.new }
    ensures terms { (D.instances driver.new ≡ D.instances driver.old)
        × (D.batch driver.new ≡ D.batch driver.old) }
    ensures same { (I.plan intake.new ≡ I.plan intake.old)
        × (I.token intake.new ≡ I.token intake.old) }
    ensures same_out { (O.plan outlet.new ≡ O.plan outlet.old)
        × (O.token outlet.new ≡ O.token outlet.old) }
{
    law::steps_lead_to(driver.core());
    law::finished_windows_stay();
    let fed = feed(alloc, driver, last, intake)?;
    let put = work_and_put(alloc, driver, work, outlet);
    let all = all_finished(driver.core());
    let over = why_over(fed, put, all);
    Ok(RoundEnd { fed, over })
}
