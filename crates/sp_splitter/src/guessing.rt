// The chances of open groups are asked of the predictor.
ghost use Rattle.std.specs.Prelude.{◌≡◌, ℕ, IfOk, OnOk};
ghost use Rattle.sp_plan.specs.WindowNumbers.{size};
ghost use Rattle.sp_chance.specs.Shares.{share_of};
ghost use Rattle.sp_core.specs.Leasing.{HasBegun};
ghost use Rattle.sp_spread.specs.Guessing.{AreGuessed, coming_in};
ghost use Rattle.sp_splitter.specs.Asking.{AreAsked, AreKept, AreNumbered, IsGuessed};

use crate::Memory;
use sp_base::Share;
use sp_chance::{Chances, Predictor};
use sp_core::Core;
use sp_match::Matcher;
use sp_plan::Length;
use sp_version::Version;
use std::alloc::Global;

/// The chance of each open group of each live version, as the predictor holds it now.
pub(crate) fn guess(
    alloc: Global,
    core: &Core,
    predictor: &dyn Predictor,
) -> Result<Chances, Memory>
    ensures { IfOk result
        (λ chances. AreGuessed core.now.plan core.now.machine (means predictor.now)
        (share_of chances)) }
{
    let mut chances = Chances::new(alloc);
    let ids = core.tree().walk(alloc)?;
    for id in &ids {
        guess_version(core, predictor, *id, &mut chances)?;
    }
    Ok(chances)
}

// The chance of each open group of one version, if it is live.
fn guess_version(
    core: &Core,
    predictor: &dyn Predictor,
    id: u64,
    chances: &mut Chances,
) -> Result<(), Memory>
    ensures guessed { OnOk result (IsGuessed core.now.plan core.now.machine (means predictor.now)
        (share_of chances.new) id) }
    ensures others { OnOk result (AreKept id (share_of chances.old) (share_of chances.new)) }
{
    // They tell what every core keeps; and a law: the runs of every version have their groups.
    core.plan();
    core.finished();
    sp_rules::law::versions_have_groups();
    let Some(held) = core.tree().get(id) else {
        return Ok(());
    };
    let events = coming(core, held);
    let matcher = held.matcher.get();
    ask_runs(predictor, matcher, id, events, chances)
}

// The chance of each open run of a version that has a group, where so many events may come.
fn ask_runs(
    predictor: &dyn Predictor,
    matcher: &Matcher,
    id: u64,
    events: u32,
    chances: &mut Chances,
) -> Result<(), Memory>
    requires numbered { AreNumbered matcher.now.open_runs }
    ensures asked { OnOk result (AreAsked matcher.now (means predictor.now) events
        (share_of chances.new id)) }
    ensures others { OnOk result (AreKept id (share_of chances.old) (share_of chances.new)) }
{
    for (place, run) in matcher.open_runs().iter().enumerate() {
        if !run.used.list().is_empty() {
            // Runs are numbered from 1 in their order, so each place is below the number.
            let number = run.number;
            let left = matcher.left(place as u32);
            let share = Share::new(predictor.chance(left, events));
            chances.set(id, number, share)?;
        }
    }
    Ok(())
}

// How many events a version may still read.
fn coming(core: &Core, held: &Version) -> u32
    requires begun { HasBegun core.now held.now.window }
    ensures { result ≡ coming_in core.now.plan.length
        (size core.now.plan core.now.machine.events held.now.window) held.now.position }
{
    match core.plan().length {
        Length::Events(count) => count.saturating_sub(held.position),
        Length::Time(_) => core.fed_of(held.window).0.saturating_sub(held.position),
    }
}
