// The end of an event's handling: what was marked is done, or all is made as it was.
ghost use Rattle.std.specs.Prelude.{◌≡◌, List, [], IsTrue, OnSome, ◌<◌, filter, length, map, take};
ghost use Rattle.std.specs.List.{All};
ghost use Rattle.sp_plan.specs.declared.plan.Plan.{Plan};
ghost use Rattle.sp_match.specs.inside.Kept.{Kept, all_kept, pairs, started, before, stays, CanUndo};
ghost use Rattle.sp_match.specs.inside.Good.{Good};
ghost use Rattle.sp_match.specs.inside.Going.{IsIdle};
ghost use Rattle.sp_match.specs.inside.Effects.{open_runs};
ghost use Rattle.sp_match.specs.inside.Takers.{AreGrown, IsHeld};
ghost use Rattle.sp_match.specs.inside.Offer.{IsOffer};

use crate::holdings::Holdings;
use crate::offer::Offer;
use crate::run::Run;
use crate::stock::Stock;

/// The runs are as before the event of this number, where so many were there then.
pub(crate) fn undo(runs: &mut Vec<Run>, count: usize, number: u32)
    requires { All CanUndo (take count (all_kept runs.old.items)) }
    ensures { all_kept runs.new.items ≡ map (before number) (take count (all_kept runs.old.items)) }
{
    runs.truncate(count);
    for run in runs.iter_mut() {
        run.undo(number);
    }
}

/// All runs end, and leave their rooms to later ones where there is room for them. Takes no memory.
pub(crate) fn end_all(runs: &mut Vec<Run>, stock: &mut Stock)
    ensures { runs.new.items ≡ [] }
{
    while let Some(run) = runs.pop() {
        stock.keep(run);
    }
}

// The last run, taken away where it leaves.
fn last_leaving(runs: &mut Vec<Run>) -> Option<Run>
    ensures staying { filter (λ run. stays run.fate) runs.new.items
        ≡ filter (λ run. stays run.fate) runs.old.items }
    ensures fewer { OnSome result (length runs.new.items < length runs.old.items) }
{
    match runs.last() {
        Some(run) if !run.stays() => runs.pop(),
        _ => None,
    }
}

// Drops the runs that leave. The last ones, mostly all of them, leave their rooms to later runs.
fn drop_leaving(runs: &mut Vec<Run>, stock: &mut Stock)
    ensures { runs.new.items ≡ filter (λ run. stays run.fate) runs.old.items }
{
    while let Some(run) = last_leaving(runs) {
        stock.take(run);
    }
    runs.retain(|run| run.stays());
}

// The runs that stay go on, and the others are dropped. Where it is known that all stay, they aren't gone through.
fn settle(runs: &mut Vec<Run>, stock: &mut Stock, all_stay: bool)
    requires stay { IsTrue all_stay → All IsIdle (all_kept runs.old.items) }
    ensures runs { map started (all_kept runs.new.items) ≡ open_runs (all_kept runs.old.items) }
    ensures good { (q : Plan) → All (Good q) (all_kept runs.old.items)
        → All (Good q) (all_kept runs.new.items) }
    ensures idle { All IsIdle (all_kept runs.new.items) }
{
    if !all_stay {
        drop_leaving(runs, stock);
    }
}

/// An event was handled, when so many runs were open: the runs that stay go on, and the others are dropped. Where it did
/// nothing to any run they aren't gone through. What is kept beside them stays fresh where all of them stay.
pub(crate) fn end_event(
    offer: &Offer,
    runs: &mut Vec<Run>,
    stock: &mut Stock,
    holdings: &mut Holdings,
    count: usize,
    is_quiet: bool,
)
    requires offer { IsOffer offer.now }
    requires good { All (Good offer.now.plan.now) (all_kept runs.old.items) }
    requires was { (old : List Kept)
        × AreGrown offer.now.plan.now offer.now.number count is_quiet old (all_kept runs.old.items)
        × IsHeld offer.now.plan.now (map pairs old) holdings.old }
    ensures runs { map started (all_kept runs.new.items) ≡ open_runs (all_kept runs.old.items) }
    ensures good { (q : Plan) → All (Good q) (all_kept runs.old.items)
        → All (Good q) (all_kept runs.new.items) }
    ensures idle { All IsIdle (all_kept runs.new.items) }
    ensures held { IsHeld offer.now.plan.now (map pairs (all_kept runs.new.items)) holdings.new }
{
    let all_stay = holdings.outlive(offer, runs, count, is_quiet);
    settle(runs, stock, all_stay);
}
