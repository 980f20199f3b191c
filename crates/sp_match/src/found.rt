// What a completed run is as a match of a window.
ghost use Rattle.std.specs.Prelude.{◌≡◌, map, IfOk};
ghost use Rattle.sp_match.specs.public.Seen.{seen_name};

use crate::Memory;
use sp_base::Numbers;
use sp_plan::{Listed, Match, Places};
use std::alloc::Global;

/// These numbers of events, which begin at 1, as a match has them. Fails for want of memory alone.
pub fn places_of(alloc: Global, numbers: &Numbers) -> Result<Places, Memory>
    ensures { IfOk result (λ places. places ≡ numbers.now.list) }
{
    Ok(Places::of(numbers.copy(alloc)?))
}

// The events of each name, as a match has them, where those who told of them need them no more.
fn as_bound_places(alloc: Global, bound: Vec<(u8, Numbers)>) -> Result<Vec<(u8, Places)>, Memory>
    ensures { IfOk result (λ list. list.items ≡ map seen_name bound.items) }
{
    let mut list = Vec::with_capacity(alloc, bound.len())?;
    for (name, numbers) in bound {
        list.push((name, Places::of(numbers)))?;
    }
    Ok(list)
}

// The events of each name, as a match has them.
fn bound_places(alloc: Global, bound: &[(u8, Numbers)]) -> Result<Vec<(u8, Places)>, Memory>
    ensures { IfOk result (λ list. list.items ≡ map seen_name bound.now) }
{
    let mut list = Vec::with_capacity(alloc, bound.len())?;
    for (name, numbers) in bound {
        list.push((*name, places_of(alloc, numbers)?))?;
    }
    Ok(list)
}

/// The match that a completed run is. Its window and the match itself are numbered from 1; what it bound
/// to each name and what it used are as `Move::Completed` tells them. Fails for want of memory alone.
pub fn match_of(
    alloc: Global,
    window: u32,
    number: u64,
    bound: &[(u8, Numbers)],
    used: &Numbers,
) -> Result<Match, Memory>
    ensures { IfOk result (λ one. one ≡ record {
      window = window;
      number = number;
      bound = map seen_name bound.now;
      used = used.now.list;
    }) }
{
    Ok(Match {
        window,
        number,
        bound: Listed::of(bound_places(alloc, bound)?),
        used: places_of(alloc, used)?,
    })
}

/// The match that a completed run is, as `match_of` has it, with the lists that told of it: no list of
/// numbers is copied. Fails for want of memory alone.
pub fn as_match(
    alloc: Global,
    window: u32,
    number: u64,
    bound: Listed<(u8, Numbers)>,
    used: Numbers,
) -> Result<Match, Memory>
    ensures { IfOk result (λ one. one ≡ record {
      window = window;
      number = number;
      bound = map seen_name bound;
      used = used.list;
    }) }
{
    Ok(Match {
        window,
        number,
        bound: Listed::of(as_bound_places(alloc, bound.into_vec())?),
        used: Places::of(used),
    })
}
