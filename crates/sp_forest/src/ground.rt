// What all trees have in common.
ghost use Rattle.std.specs.Prelude.{◌≡◌};

use crate::forest::Trees;
use crate::setting::Setting;
use sp_instance::Gate;
use sp_ports::Stop;
use std::alloc::Global;
use std::sync::Wait;
use std::thread::Threads;

/// Where trees stand: by what they are driven, and what comes behind the input.
#[derive(Drop)]
pub(crate) struct Ground<'a, G: Gate, R: Threads + Wait + Sync> {
    pub(crate) rt: &'a R,
    pub(crate) alloc: Global,
    pub(crate) gate: &'a G,
    pub(crate) setting: Setting,
    /// Why the reading of the input ended.
    pub(crate) stop: Stop,
}

/// Where these trees stand.
pub(crate) fn ground_of<'a, G: Gate, R: Threads + Wait + Sync>(
    rt: &'a R,
    alloc: Global,
    gate: &'a G,
    trees: &Trees,
) -> Ground<'a, G, R>
    ensures setting { result.setting ≡ trees.now.setting }
    ensures stop { result.stop ≡ trees.now.stop }
{
    Ground {
        rt,
        alloc,
        gate,
        setting: trees.setting,
        stop: trees.stop,
    }
}
