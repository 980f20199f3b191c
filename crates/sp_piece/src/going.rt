// How a matcher and what is told of it go on.
ghost use Rattle.std.specs.Prelude.{◌≡◌, ◌+◌, [], true, OnOk, OnErr, IsTrue, IsFalse};
ghost use Rattle.sp_plan.specs.Events.{fits};
ghost use Rattle.sp_match.specs.public.Known.{IsKnown};
ghost use Rattle.sp_match.specs.public.Laws.{Below};
ghost use Rattle.sp_match.specs.public.Matching.{IsAfter, TellsEvent, TellsWanted, runs_of};
ghost use Rattle.sp_match.specs.public.Seen.{all_seen};
ghost use Rattle.sp_piece.specs.Keeping.{ClosedOff, HandledOn, TellsOn, TellsSame, current, wanted_where};
ghost use Rattle.sp_wants.specs.Stretches.{repeated};

use crate::Memory;
use crate::own::{Own, Place};
use crate::telling::{Telling, keep_completions};
use sp_match::{Known, Matcher, Moves};
use sp_plan::Event;
use std::alloc::Global;

/// A lent event that is to be read, with its number.
#[derive(Clone, Copy, Drop)]
pub(crate) struct Next<'a> {
    pub(crate) number: u32,
    pub(crate) event: &'a Event,
    /// What is known of it.
    pub(crate) known: Known,
    /// Whether what the open runs want is told.
    pub(crate) wants: bool,
}

/// What the open runs want where so many events change nothing comes behind what is told, where that is told. After
/// want of memory no more is told than before.
pub(crate) fn add_wanted(
    led: &Matcher,
    wants: bool,
    times: u32,
    telling: &mut Telling,
) -> Result<(), Memory>
    ensures ok { OnOk result
        (TellsOn (record { told = []; wanted = repeated times (wanted_where wants led.now) })
        telling.old.entries telling.new.entries) }
    ensures err { OnErr result (TellsSame telling.old.entries telling.new.entries) }
{
    if !wants {
        return Ok(());
    }
    if led.open_runs().is_empty() {
        return Ok(());
    }
    telling.settle()?;
    let (told, room) = telling.entries.split_at_mut(1);
    let added = led.add_wanted(times, &mut room[0].wanted, &mut told[0].wanted);
    room[0].wanted.clear();
    added
}

// The matcher handles the event, and the room holds what is told of it. After want of memory the matcher is as before,
// and the room is empty.
fn offer(alloc: Global, led: &mut Matcher, room: &mut Moves, next: &Next) -> Result<(), Memory>
    requires fits { fits led.old.plan next.now.event.now ≡ true }
    requires known { IsKnown led.old.plan next.now.event.now next.now.known }
    requires below { Below next.now.number (runs_of led.old) }
    ensures stands { OnOk result (IsAfter (next.now.number, next.now.event.now) led.old led.new) }
    ensures told { OnOk result (TellsEvent (next.now.number, next.now.event.now) led.old
        (all_seen room.new.list.items)) }
    ensures wanted { IsTrue next.now.wants → OnOk result
        (TellsWanted (next.now.number, next.now.event.now) led.old room.new.wanted) }
    ensures none { IsFalse next.now.wants → OnOk result (room.new.wanted ≡ []) }
    ensures below { OnOk result (Below (next.now.number + 1) (runs_of led.new)) }
    ensures plan { led.new.plan ≡ led.old.plan }
    ensures err { OnErr result (led.new ≡ led.old) }
    ensures cleared { OnErr result ((room.new.list.items ≡ []) × (room.new.wanted ≡ [])) }
{
    let number = next.number;
    if next.wants {
        return led.offer_known::<true>(alloc, number, next.event, next.known, room);
    }
    led.offer_known::<false>(alloc, number, next.event, next.known, room)?;
    room.wanted.clear();
    Ok(())
}

// The matcher handles the event, and the completions by it come behind the others. After want of memory it stands for
// what it did.
fn offer_event(
    alloc: Global,
    matcher: &mut Own,
    telling: &mut Telling,
    before: &Matcher,
    next: &Next,
) -> Result<(), Memory>
    requires fits { fits (current matcher.old before.now).plan next.now.event.now ≡ true }
    requires known { IsKnown (current matcher.old before.now).plan
        next.now.event.now next.now.known }
    requires below { Below next.now.number (runs_of (current matcher.old before.now)) }
    ensures ok { OnOk result (HandledOn next.now.wants (next.now.number, next.now.event.now)
        (current matcher.old before.now) (current matcher.new before.now)
        telling.old.entries telling.new.entries) }
    ensures err { OnErr result (current matcher.new before.now ≡ current matcher.old before.now) }
    ensures err_moves { OnErr result
        (TellsSame telling.old.entries telling.new.entries) }
{
    telling.settle()?;
    matcher.begin(alloc, before)?;
    let Place::Begun(led) = &mut matcher.place else {
        unreachable!()
    };
    let room = &mut telling.entries[1];
    offer(alloc, led, room, next)?;
    keep_completions(&mut room.list);
    // What isn't moved is told from the room.
    let _ = telling.settle();
    Ok(())
}

/// The next event is handled, and the completions by it come behind what was told before. One that changes
/// nothing needs no matcher of its own. After want of memory the matcher stands for what it did, and no more
/// is told than before.
pub(crate) fn handle_event(
    alloc: Global,
    matcher: &mut Own,
    telling: &mut Telling,
    before: &Matcher,
    next: &Next,
) -> Result<(), Memory>
    requires fits { fits (current matcher.old before.now).plan next.now.event.now ≡ true }
    requires known { IsKnown (current matcher.old before.now).plan
        next.now.event.now next.now.known }
    requires below { Below next.now.number (runs_of (current matcher.old before.now)) }
    ensures ok { OnOk result (HandledOn next.now.wants (next.now.number, next.now.event.now)
        (current matcher.old before.now) (current matcher.new before.now)
        telling.old.entries telling.new.entries) }
    ensures err { OnErr result (current matcher.new before.now ≡ current matcher.old before.now) }
    ensures err_moves { OnErr result
        (TellsSame telling.old.entries telling.new.entries) }
{
    let so_far = matcher.led(before);
    if so_far.ignores(next.known) {
        return add_wanted(so_far, next.wants, 1, telling);
    }
    offer_event(alloc, matcher, telling, before, next)
}

/// The matcher reads the closing, by which no run completes: so nothing is told. After want of memory the matcher
/// stands for what it did.
pub(crate) fn handle_closing(
    alloc: Global,
    matcher: &mut Own,
    before: &Matcher,
) -> Result<(), Memory>
    ensures ok { OnOk result (ClosedOff (current matcher.old before.now)
        (current matcher.new before.now)) }
    ensures err { OnErr result (current matcher.new before.now ≡ current matcher.old before.now) }
{
    if matcher.led(before).open_runs().is_empty() {
        return Ok(());
    }
    matcher.begin(alloc, before)?;
    let Place::Begun(led) = &mut matcher.place else {
        unreachable!()
    };
    led.close(alloc)?;
    Ok(())
}
