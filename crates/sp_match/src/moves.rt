// What the handling of an event tells.
ghost use Rattle.std.specs.Prelude.{◌≡◌, [], map, IfOk};
ghost use Rattle.sp_match.specs.public.Seen.{all_seen, seen, seen_name};

use crate::Memory;
use sp_base::Numbers;
use sp_plan::Listed;
use sp_wants::Wants;
use std::alloc::Global;

/// What happened to a run. Runs are named by their numbers.
#[derive(Drop)]
pub enum Move {
    /// It started, with no event bound.
    Opened {
        run: u32,
    },
    /// It bound the event of this number.
    Grown {
        run: u32,
        number: u32,
    },
    /// It is complete: each name of the plan, by rising number, with the numbers of its events; and the
    /// numbers that it uses.
    Completed {
        run: u32,
        bound: Listed<(u8, Numbers)>,
        used: Numbers,
    },
    /// It was abandoned.
    Abandoned {
        run: u32,
    },
}

// A name with its numbers once more.
fn copy_name(alloc: Global, name: &(u8, Numbers)) -> Result<(u8, Numbers), Memory>
    ensures { IfOk result (λ copy. seen_name copy ≡ seen_name name.now) }
{
    Ok((name.0, name.1.copy(alloc)?))
}

// Names with their numbers once more.
fn copy_names(alloc: Global, names: &[(u8, Numbers)]) -> Result<Vec<(u8, Numbers)>, Memory>
    ensures { IfOk result (λ copies. map seen_name copies.items ≡ map seen_name names.now) }
{
    let mut copies = Vec::with_capacity(alloc, names.len())?;
    for name in names {
        copies.push(copy_name(alloc, name)?)?;
    }
    Ok(copies)
}

impl Move {
    /// The same move once more.
    pub fn copy(&self, alloc: Global) -> Result<Move, Memory>
        ensures { IfOk result (λ copy. seen copy ≡ seen self.now) }
    {
        match self {
            Move::Opened { run } => Ok(Move::Opened { run: *run }),
            Move::Grown { run, number } => Ok(Move::Grown {
                run: *run,
                number: *number,
            }),
            Move::Completed { run, bound, used } => Ok(Move::Completed {
                run: *run,
                bound: Listed::of(copy_names(alloc, bound.as_slice())?),
                used: used.copy(alloc)?,
            }),
            Move::Abandoned { run } => Ok(Move::Abandoned { run: *run }),
        }
    }
}

// Moves once more.
fn copy_moves(alloc: Global, list: &[Move]) -> Result<Vec<Move>, Memory>
    ensures { IfOk result (λ moves. all_seen moves.items ≡ all_seen list.now) }
{
    let mut moves = Vec::with_capacity(alloc, list.len())?;
    for one in list {
        moves.push(one.copy(alloc)?)?;
    }
    Ok(moves)
}

/// What the handling of an event did.
#[derive(Drop)]
pub struct Moves {
    /// Move by move, in the order in which they happened.
    pub list: Vec<Move>,
    /// For each run that was open before and wasn't abandoned, by run number: how many events it wanted
    /// at least before the event, and how many after it.
    pub wanted: Wants,
}

impl Moves {
    /// No moves. Takes no memory.
    pub fn new(alloc: Global) -> Moves
        ensures list { result.list.items ≡ [] }
        ensures wanted { result.wanted ≡ [] }
    {
        Moves {
            list: Vec::new(alloc),
            wanted: Wants::new(alloc),
        }
    }

    /// The same moves once more.
    pub fn copy(&self, alloc: Global) -> Result<Moves, Memory>
        ensures list { IfOk result
            (λ moves. all_seen moves.list.items ≡ all_seen self.now.list.items) }
        ensures wanted { IfOk result (λ moves. moves.wanted ≡ self.now.wanted) }
    {
        Ok(Moves {
            list: copy_moves(alloc, &self.list)?,
            wanted: self.wanted.copy(alloc)?,
        })
    }

    /// Forgets all moves. The rooms are kept, and no memory is taken.
    pub fn clear(&mut self)
        ensures list { self.new.list.items ≡ [] }
        ensures wanted { self.new.wanted ≡ [] }
    {
        self.list.clear();
        self.wanted.clear();
    }
}
