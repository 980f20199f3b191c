// Copies of matches.
ghost use Rattle.std.specs.Prelude.{◌≡◌, IfOk};

use sp_base::Listed;
use sp_plan::{Match, Memory, Places};
use std::alloc::Global;

// The same numbers.
fn copy_numbers(alloc: Global, numbers: &Places) -> Result<Places, Memory>
    ensures { IfOk result (λ places. places ≡ numbers.now) }
{
    match Places::new(alloc, numbers.list())? {
        Some(places) => Ok(places),
        None => unreachable!(),
    }
}

// The same match.
fn copy_match(alloc: Global, found: &Match) -> Result<Match, Memory>
    ensures { IfOk result (λ one. one ≡ found.now) }
{
    let mut bound = Vec::with_capacity(alloc, found.bound.as_slice().len())?;
    for (name, numbers) in found.bound.as_slice() {
        bound.push((*name, copy_numbers(alloc, numbers)?))?;
    }
    Ok(Match {
        window: found.window,
        number: found.number,
        bound: Listed::of(bound),
        used: copy_numbers(alloc, &found.used)?,
    })
}

/// The same matches, in their order.
pub(crate) fn copied(alloc: Global, matches: &[Match]) -> Result<Vec<Match>, Memory>
    ensures { IfOk result (λ copies. copies.items ≡ matches.now) }
{
    let mut copies = Vec::with_capacity(alloc, matches.len())?;
    for found in matches {
        copies.push(copy_match(alloc, found)?)?;
    }
    Ok(copies)
}
