// Matches are put to an outlet.
ghost use Rattle.std.specs.Prelude.{◌≡◌, ◌≢◌, Err, OnOk};
ghost use Rattle.sp_io.specs.Outside.{Rose};
ghost use Rattle.sp_ports.specs.Taking.{Took, TookFirst};
ghost use Rattle.sp_ports.specs.declared.outlet.OutFault.TheVariants as o;
ghost use Rattle.sp_splitter.specs.Stages.{matches_of};
ghost use Rattle.sp_split.specs.Driving.{FailedWithin};

use sp_core::Emitted;
use sp_plan::Match;
use sp_ports::{OutFault, Outlet};
use std::alloc::Global;

/// Puts matches in their order, up to the first one that the outlet doesn't take.
pub(crate) fn put_all<O: Outlet>(
    alloc: Global,
    matches: &[Match],
    outlet: &mut O,
) -> Result<(), OutFault>
    ensures took { OnOk result (Took (O.plan outlet.old) matches.now (O.state outlet.old)
        (O.state outlet.new)) }
    ensures failed { result ≡ Err o.Failed → FailedWithin (O.plan outlet.old) matches.now
        (O.state outlet.old) (O.state outlet.new) }
    ensures rose { result ≡ Err o.Failed
        → Rose (O.state outlet.old).faults (O.state outlet.new).faults }
    ensures short { result ≡ Err o.Memory → TookFirst (O.plan outlet.old) matches.now
        (O.state outlet.old) (O.state outlet.new) }
    ensures no_fault { result ≢ Err o.Failed
        → (O.state outlet.new).faults ≡ (O.state outlet.old).faults }
    ensures same { (O.plan outlet.new ≡ O.plan outlet.old)
        × (O.token outlet.new ≡ O.token outlet.old) }
{
    for found in matches {
        outlet.put(alloc, found)?;
    }
    Ok(())
}

/// Puts the matches of windows, one window after another, up to the first match that the outlet doesn't take.
pub(crate) fn put_windows<O: Outlet>(
    alloc: Global,
    finished: &[Emitted],
    outlet: &mut O,
) -> Result<(), OutFault>
    ensures took { OnOk result (Took (O.plan outlet.old) (matches_of finished.now)
        (O.state outlet.old)
        (O.state outlet.new)) }
    ensures failed { result ≡ Err o.Failed
        → FailedWithin (O.plan outlet.old) (matches_of finished.now)
        (O.state outlet.old) (O.state outlet.new) }
    ensures rose { result ≡ Err o.Failed
        → Rose (O.state outlet.old).faults (O.state outlet.new).faults }
    ensures short { result ≡ Err o.Memory → TookFirst (O.plan outlet.old) (matches_of finished.now)
        (O.state outlet.old) (O.state outlet.new) }
    ensures no_fault { result ≢ Err o.Failed
        → (O.state outlet.new).faults ≡ (O.state outlet.old).faults }
    ensures same { (O.plan outlet.new ≡ O.plan outlet.old)
        × (O.token outlet.new ≡ O.token outlet.old) }
{
    for window in finished {
        put_all(alloc, &window.matches, outlet)?;
    }
    Ok(())
}
