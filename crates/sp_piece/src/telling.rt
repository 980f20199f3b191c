// What a reading tells, and how it is gathered.
ghost use Rattle.std.specs.Prelude.{◌≡◌, [], filter, map, IfOk, IsTrue, OnOk};
ghost use Rattle.sp_match.specs.public.Laws.{is_completion};
ghost use Rattle.sp_match.specs.public.Seen.{all_seen, seen};
ghost use Rattle.sp_piece.specs.Reading.{joined, seen_moves};
ghost use Rattle.sp_piece.specs.Keeping.{IsJoined, IsSettled, TellsSame};

use crate::Memory;
use sp_match::{Move, Moves};
use std::alloc::{AllocError, Global};

/// What a reading tells: which runs completed, and what the open ones wanted. The second entry is a room in which an
/// event tells, and which is used again: what stands there is moved behind what the first one tells, or stays until there
/// is memory for it. So neither an event nor the entries take lists of their own.
#[derive(Drop)]
pub(crate) struct Telling {
    pub(crate) entries: [Moves; 2],
}

// Whether a run completes by the move.
fn completes(one: &Move) -> bool
    ensures { result ≡ is_completion (seen one.now) }
{
    matches!(one, Move::Completed { .. })
}

/// Drops all moves but the completions.
pub(crate) fn keep_completions(moves: &mut Vec<Move>)
    ensures { all_seen moves.new.items ≡ filter is_completion (all_seen moves.old.items) }
{
    moves.retain(|one| completes(one));
}

// Moves what `more` tells behind what the entry tells, and answers whether all of it was moved. A list for which
// memory is refused stays where it is.
fn join(entry: &mut Moves, more: &mut Moves) -> bool
    ensures list { IsJoined entry.old.list.items more.old.list.items entry.new.list.items
        more.new.list.items }
    ensures wanted { IsJoined entry.old.wanted more.old.wanted
        entry.new.wanted more.new.wanted }
    ensures all { IsTrue result
        → (more.new.list.items ≡ []) × (more.new.wanted ≡ []) }
{
    entry.list.append(&mut more.list).is_ok() && entry.wanted.append(&mut more.wanted).is_ok()
}

impl Telling {
    /// Nothing is told. Takes no memory.
    pub(crate) fn new(alloc: Global) -> Telling
        ensures { joined (map seen_moves result.entries) ≡ joined [] }
    {
        Telling {
            entries: [Moves::new(alloc), Moves::new(alloc)],
        }
    }

    /// The same once more.
    pub(crate) fn copy(&self, alloc: Global) -> Result<Telling, Memory>
        ensures { IfOk result
            (λ copy. map seen_moves copy.entries ≡ map seen_moves self.now.entries) }
    {
        let [told, room] = &self.entries;
        Ok(Telling {
            entries: [told.copy(alloc)?, room.copy(alloc)?],
        })
    }

    /// Moves what the room tells behind the rest. No more and no less is told than before, also after want of memory.
    pub(crate) fn settle(&mut self) -> Result<(), Memory>
        ensures same { TellsSame self.old.entries self.new.entries }
        ensures settled { OnOk result (IsSettled self.new.entries) }
    {
        let (told, room) = self.entries.split_at_mut(1);
        if join(&mut told[0], &mut room[0]) {
            Ok(())
        } else {
            Err(AllocError)
        }
    }
}
