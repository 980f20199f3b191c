// A run binds an event. Memory may be refused later in the handling of the event, so a run that grows
// can be made as it was.
ghost use Rattle.std.specs.Prelude.{◌≡◌, ◌<◌, true, [], ◌∷◌, ◌++◌, length, map, slice_get, IfOk, OnOk};
ghost use Rattle.std.specs.List.{All, flat_map};
ghost use Rattle.sp_base.specs.Numbers.{is_among};
ghost use Rattle.sp_plan.specs.Runs as definitions;
ghost use Rattle.sp_match.specs.inside.Kept.{kept, all_kept};
ghost use Rattle.sp_match.specs.inside.Good.{Good, NumbersBelow, RunUndoes, Undoes};
ghost use Rattle.sp_match.specs.inside.Offer.{IsOffer, IsShared, numbered};
ghost use Rattle.sp_match.specs.inside.Effects.{Adds, run_after_binding, binding_told, completes, used_by_binding, run_at, runs_after_binding, runs_binding_told};

use crate::Memory;
use crate::completing::finish;
use crate::leaving::abandon;
use crate::moves::Move;
use crate::offer::{Offer, share};
use crate::run::Run;
use crate::stock::Stock;
use crate::taking::{ahead_still, look_on};
use sp_plan::Plan;

// Whether the query consumes the events of a name.
fn is_consumed(plan: &Plan, name: u8) -> bool
    requires { name < length plan.now.names }
    ensures { result ≡ definitions.is_consumed (slice_get plan.now.names name) }
{
    plan.names.as_slice()[name as usize].consumed
}

// One run binds the event to the name, and completes where no element is left. Answers whether it is
// complete.
fn grow(
    offer: &Offer,
    shared: &mut Stock,
    run: &mut Run,
    name: u8,
    list: &mut Vec<Move>,
) -> Result<bool, Memory>
    requires offer { IsOffer offer.now }
    requires shared { IsShared offer.now shared.old }
    requires good { Good offer.now.plan.now (kept run.old) }
    requires named { name < length offer.now.plan.now.names }
    requires binds { is_among (definitions.bound_names offer.now.plan.now) name ≡ true }
    requires below { NumbersBelow offer.now.number (kept run.old) }
    ensures run { OnOk result (kept run.new
        ≡ run_after_binding offer.now.plan.now name (numbered offer.now) (kept run.old)) }
    ensures told { OnOk result (Adds list.old.items list.new.items
        (binding_told offer.now.plan.now name (numbered offer.now) (kept run.old))) }
    ensures complete { IfOk result (λ complete. complete
        ≡ completes offer.now.plan.now name (numbered offer.now) (kept run.old)) }
    ensures shared { IsShared offer.now shared.new }
    ensures undoes { RunUndoes offer.now.plan.now offer.now.number (kept run.old) (kept run.new) }
{
    let consumed = is_consumed(offer.plan, name);
    let event = share(offer, shared)?;
    let known = ahead_still(run, name);
    run.grow(name, consumed, offer.number, event)?;
    look_on(offer.plan, run, known);
    list.push(Move::Grown {
        run: run.number,
        number: offer.number,
    })?;
    let is_whole = finish(offer.alloc, offer.plan, run, list)?;
    Ok(is_whole)
}

/// The run at this place binds the event to the name. Where it is complete then it leaves, and with it
/// each other open run that holds a number which it used. Answers whether it used the event.
pub(crate) fn bind(
    offer: &Offer,
    shared: &mut Stock,
    runs: &mut [Run],
    at: usize,
    name: u8,
    list: &mut Vec<Move>,
) -> Result<bool, Memory>
    requires offer { IsOffer offer.now }
    requires shared { IsShared offer.now shared.old }
    requires good { All (Good offer.now.plan.now) (all_kept runs.old) }
    requires named { name < length offer.now.plan.now.names }
    requires binds { is_among (definitions.bound_names offer.now.plan.now) name ≡ true }
    requires below { NumbersBelow offer.now.number (run_at (all_kept runs.old) at) }
    requires within { at < length runs.old }
    ensures used { IfOk result (λ used. used ≡ is_among
        (used_by_binding offer.now.plan.now name (numbered offer.now)
        (run_at (all_kept runs.old) at)) offer.now.number) }
    ensures runs { OnOk result (all_kept runs.new
        ≡ runs_after_binding offer.now.plan.now name (numbered offer.now) at (all_kept runs.old)) }
    ensures told { OnOk result (Adds list.old.items list.new.items
        (runs_binding_told offer.now.plan.now name (numbered offer.now) at (all_kept runs.old))) }
    ensures shared { IsShared offer.now shared.new }
    ensures undoes { Undoes offer.now.plan.now offer.now.number (all_kept runs.old)
        (all_kept runs.new) }
{
    let is_whole = grow(offer, shared, &mut runs[at], name, list)?;
    if !is_whole {
        return Ok(false);
    }
    if let [run] = runs {
        return Ok(run.used.has(offer.number));
    }
    let used = runs[at].used.copy(offer.alloc)?;
    abandon(runs, &used, list)?;
    Ok(used.has(offer.number))
}
