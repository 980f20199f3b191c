// The room of the journal. The end of input, rolls and finishes take no memory: the steps that take some
// make room for them.
ghost use Rattle.std.specs.Prelude.{◌≡◌, ◌+◌, ◌*◌, ◌<◌, ◌≤◌, ◌++◌, ◌∷◌, [], length, IfOk, OnOk};
ghost use Rattle.sp_base.specs.Limits.{live_limit};
ghost use Rattle.sp_core.specs.Rooms.{matches_held, numbers_held, room};
ghost use Rattle.sp_tree.specs.Grown.{AreGrown};

use crate::Memory;
use crate::homecoming::Brought;
use sp_base::Numbers;
use sp_group::{Entry, Step};
use sp_plan::Match;
use sp_tree::Tree;
use sp_version::Version;
use std::alloc::{AllocError, Global};

// Makes room for the entries of one step that takes memory, a reading's among them, and for all that may
// come without memory then, where so many versions are live before it.
pub(crate) fn make_room(journal: &mut Vec<Entry>, live: u32) -> Result<(), Memory>
    requires { live ≤ live_limit }
    ensures items { journal.new.items ≡ journal.old.items }
    ensures kept { room journal.old ≤ room journal.new }
    ensures ok { OnOk result (2 * live + 5 ≤ room journal.new) }
{
    journal.reserve(2 * live as usize + 5)
}

// Enters a step that was done so many times, for which there is room.
pub(crate) fn enter(journal: &mut Vec<Entry>, step: Step, times: u32)
    requires { 0 < room journal.old }
    ensures items { journal.new.items
        ≡ journal.old.items ++ record { step = step; times = times } ∷ [] }
    ensures kept { room journal.old ≤ room journal.new + 1 }
{
    let _ = journal.push(Entry { step, times });
}

// How many numbers there are. Fails where they are more than a `u32` counts, as for want of memory.
pub(crate) fn count_of(numbers: &Numbers) -> Result<u32, Memory>
    ensures { IfOk result (λ count. count ≡ length numbers.now.list) }
{
    u32::try_from(numbers.list().len()).or(Err(AllocError))
}

// How many matches the versions hold, and how many numbers these used. Fails too where they are past all
// memory.
fn held_by(alloc: Global, tree: &Tree<Version>) -> Result<(usize, u32), Memory>
    ensures matches { IfOk result (λ pair. pair.0 ≡ matches_held tree.now.entries) }
    ensures numbers { IfOk result (λ pair. pair.1 ≡ numbers_held tree.now.entries) }
{
    tree.live();
    let mut matches = 0usize;
    let mut numbers = 0u32;
    let ids = tree.walk(alloc)?;
    for id in &ids {
        if let Some(held) = tree.get(*id) {
            matches = matches.checked_add(held.copies.len()).ok_or(AllocError)?;
            numbers = numbers
                .checked_add(count_of(&held.used)?)
                .ok_or(AllocError)?;
        }
    }
    Ok((matches, numbers))
}

// Makes room for what a piece brings home, and for all that may come without memory then.
pub(crate) fn make_rooms_for(
    alloc: Global,
    tree: &Tree<Version>,
    brought: &Brought,
    journal: &mut Vec<Entry>,
    emitted: &mut Vec<Match>,
    consumed: &mut Numbers,
) -> Result<(), Memory>
    requires { length tree.now.entries ≤ live_limit }
    ensures journal { journal.new.items ≡ journal.old.items }
    ensures journal_kept { room journal.old ≤ room journal.new }
    ensures journal_room { OnOk result (2 * length tree.now.entries + 5 ≤ room journal.new) }
    ensures emitted { emitted.new.items ≡ emitted.old.items }
    ensures emitted_kept { room emitted.old ≤ room emitted.new }
    ensures emitted_room { OnOk result
        (matches_held tree.now.entries + length brought.now.copies.items ≤ room emitted.new) }
    ensures consumed { consumed.new.list ≡ consumed.old.list }
    ensures consumed_kept { consumed.old.spare ≤ consumed.new.spare }
    ensures consumed_room { OnOk result
        (numbers_held tree.now.entries + length brought.now.used.list ≤ consumed.new.spare) }
{
    make_room(journal, tree.live())?;
    let (matches, numbers) = held_by(alloc, tree)?;
    let matches = matches.checked_add(brought.copies.len()).ok_or(AllocError)?;
    let numbers = numbers
        .checked_add(count_of(&brought.used)?)
        .ok_or(AllocError)?;
    emitted.reserve(matches)?;
    consumed.reserve(numbers)
}
