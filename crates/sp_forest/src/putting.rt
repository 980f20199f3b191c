// The matches of parts are put to an outlet, in the order of the parts.
ghost use Rattle.std.specs.Prelude.{◌≡◌, ◌≢◌, ◌<◌, ◌+◌, ◌^◌, Err, OnOk, length, map};
ghost use Rattle.std.specs.List.{All};
ghost use Rattle.sp_io.specs.Outside.{Rose};
ghost use Rattle.sp_ports.specs.Taking.{Took, TookFirst};
ghost use Rattle.sp_ports.specs.declared.outlet.OutFault.TheVariants as o;
ghost use Rattle.sp_split.specs.Driving.{FailedWithin};
ghost use Rattle.sp_forest.specs.Numbering.{numbered_from, numbered_up};

use sp_plan::Match;
use sp_ports::{OutFault, Outlet};
use std::alloc::Global;

// Puts the matches of a part behind so many others, which it counts on, up to the first one that the outlet doesn't
// take.
fn put_part<O: Outlet>(
    alloc: Global,
    found: Vec<Match>,
    outlet: &mut O,
    matches: &mut u64,
) -> Result<(), OutFault>
    requires fit { All (λ one. one.number < 2 ^ 64)
        (map (numbered_up matches.old) found.items) }
    requires few { matches.old + length found.items < 2 ^ 64 }
    ensures took { OnOk result (Took (O.plan outlet.old) (map (numbered_up matches.old) found.items)
        (O.state outlet.old) (O.state outlet.new)) }
    ensures count { OnOk result (matches.new ≡ matches.old + length found.items) }
    ensures failed { result ≡ Err o.Failed → (failed : FailedWithin (O.plan outlet.old)
        (map (numbered_up matches.old) found.items) (O.state outlet.old) (O.state outlet.new))
        × (matches.new ≡ matches.old + length failed.first) }
    ensures rose { result ≡ Err o.Failed
        → Rose (O.state outlet.old).faults (O.state outlet.new).faults }
    ensures short { result ≡ Err o.Memory → TookFirst (O.plan outlet.old)
        (map (numbered_up matches.old) found.items) (O.state outlet.old) (O.state outlet.new) }
    ensures no_fault { result ≢ Err o.Failed
        → (O.state outlet.new).faults ≡ (O.state outlet.old).faults }
    ensures same { (O.plan outlet.new ≡ O.plan outlet.old)
        × (O.token outlet.new ≡ O.token outlet.old) }
{
    let before = *matches;
    for mut one in found {
        one.number += before;
        outlet.put(alloc, &one)?;
        *matches += 1;
    }
    Ok(())
}

/// Puts the matches of parts behind so many others, which it counts on: those of one part after those of another, up
/// to the first one that the outlet doesn't take.
pub(crate) fn put_parts<O: Outlet>(
    alloc: Global,
    found: Vec<Vec<Match>>,
    outlet: &mut O,
    matches: &mut u64,
) -> Result<(), OutFault>
    requires fit { All (λ one. one.number < 2 ^ 64)
        (numbered_from matches.old (map (λ own. own.items) found.items)) }
    requires few { matches.old
        + length (numbered_from matches.old (map (λ own. own.items) found.items)) < 2 ^ 64 }
    ensures took { OnOk result (Took (O.plan outlet.old)
        (numbered_from matches.old (map (λ own. own.items) found.items))
        (O.state outlet.old) (O.state outlet.new)) }
    ensures count { OnOk result (matches.new ≡ matches.old
        + length (numbered_from matches.old (map (λ own. own.items) found.items))) }
    ensures failed { result ≡ Err o.Failed → (failed : FailedWithin (O.plan outlet.old)
        (numbered_from matches.old (map (λ own. own.items) found.items))
        (O.state outlet.old) (O.state outlet.new))
        × (matches.new ≡ matches.old + length failed.first) }
    ensures rose { result ≡ Err o.Failed
        → Rose (O.state outlet.old).faults (O.state outlet.new).faults }
    ensures short { result ≡ Err o.Memory → TookFirst (O.plan outlet.old)
        (numbered_from matches.old (map (λ own. own.items) found.items))
        (O.state outlet.old) (O.state outlet.new) }
    ensures no_fault { result ≢ Err o.Failed
        → (O.state outlet.new).faults ≡ (O.state outlet.old).faults }
    ensures same { (O.plan outlet.new ≡ O.plan outlet.old)
        × (O.token outlet.new ≡ O.token outlet.old) }
{
    for own in found {
        put_part(alloc, own, outlet, matches)?;
    }
    Ok(())
}
