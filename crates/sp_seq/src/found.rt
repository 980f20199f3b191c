// The matches of runs that completed.
ghost use Rattle.std.specs.Prelude.{◌≡◌, ◌++◌, ◌∷◌, [], ◌+◌, true, map, filter, length, OnOk};
ghost use Rattle.sp_match.specs.public.Laws.{is_completion};
ghost use Rattle.sp_match.specs.public.Seen.{seen};
ghost use Rattle.sp_seq.specs.Completed.{match_told, matches_told};

use sp_match::{Move, as_match};
use sp_plan::{Match, Memory};
use std::alloc::Global;
use std::mem;

// Whether a run completes by the move.
fn completes(one: &Move) -> bool
    ensures { result ≡ is_completion (seen one.now) }
{
    matches!(one, Move::Completed { .. })
}

// Adds the match of a run that completes by this move, with the next number.
fn add_match(alloc: Global, window: u32, one: Move, matches: &mut Vec<Match>) -> Result<(), Memory>
    requires { is_completion (seen one) ≡ true }
    ensures { OnOk result (matches.new.items ≡ matches.old.items
        ++ match_told window (length matches.old.items + 1) (seen one) ∷ []) }
{
    let Move::Completed { bound, used, .. } = one else {
        unreachable!()
    };
    let number = matches.len() as u64 + 1;
    matches.push(as_match(alloc, window, number, bound, used)?)?;
    Ok(())
}

// Adds the matches of the runs that complete by these moves, each with the next number. What such a move
// tells goes into its match: another move stands in its place then.
pub(crate) fn add_matches(
    alloc: Global,
    window: u32,
    moves: &mut [Move],
    matches: &mut Vec<Match>,
) -> Result<(), Memory>
    ensures { OnOk result
        (matches.new.items
        ≡ matches.old.items
        ++ matches_told window (length matches.old.items + 1)
        (filter is_completion (map seen moves.old))) }
{
    for at in 0..moves.len() {
        if completes(&moves[at]) {
            let one = mem::replace(&mut moves[at], Move::Abandoned { run: 0 });
            add_match(alloc, window, one, matches)?;
        }
    }
    Ok(())
}
