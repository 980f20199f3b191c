// What a run that matched comes to.
ghost use Rattle.std.specs.Prelude.{◌≡◌, IfOk};
ghost use Rattle.sp_plan.specs.Compiled.{IsCompiled};
ghost use Rattle.sp_plan.specs.Runs.{bindings};

use crate::ahead::span;
use crate::pairs::Pairs;
use sp_plan::{Listed, Memory, Places, Plan};
use std::alloc::Global;

/// What a run that matched comes to: the numbers of the events bound to each name that isn't negated, by rising
/// number of the name, and those that it consumes.
#[derive(Drop)]
pub struct Found {
    pub bound: Listed<(u8, Places)>,
    pub used: Places,
}

// Each name of the plan that isn't negated with the numbers of the events that a run of these pairs binds to it.
pub(crate) fn bindings(
    alloc: Global,
    plan: &Plan,
    pairs: &Pairs,
) -> Result<Vec<(u8, Places)>, Memory>
    requires { IsCompiled plan.now }
    ensures { IfOk result (λ list. list.items ≡ bindings plan.now pairs.now) }
{
    let mut list = Vec::with_capacity(alloc, plan.names.as_slice().len())?;
    for element in plan.elements.as_slice() {
        let (first, past) = span(*element);
        for name in first..past {
            list.push((name, Places::of(pairs.numbers_under(alloc, name)?)))?;
        }
    }
    Ok(list)
}
