ghost use Rattle.std.specs.Prelude.{◌≡◌, ℕ, ◌+◌, ◌<◌, ◌≤◌, ◌==◌, if◌then◌else◌, length, slice_index, IfOk};
ghost use Rattle.std.specs.List.Sorted.{IsStrictlyIncreasing};
ghost use Rattle.sp_base.specs.Merged.{IsMerged};

use crate::Memory;
use std::alloc::Global;

/// The numbers of two rising lists, each once.
pub(crate) fn merged(alloc: Global, ones: &[u32], others: &[u32]) -> Result<Vec<u32>, Memory>
    requires ones { IsStrictlyIncreasing ones.now }
    requires others { IsStrictlyIncreasing others.now }
    ensures { IfOk result (λ list. IsMerged ones.now others.now list.items) }
{
    let mut list = Vec::with_capacity(alloc, ones.len() + others.len())?;
    let mut one = 0;
    let mut other = 0;
    while one < ones.len() && other < others.len() {
        let n = ones[one].min(others[other]);
        list.push(n)?;
        one = behind(ones, one, n);
        other = behind(others, other, n);
    }
    list.extend_from_slice(ones.split_at(one).1)?;
    list.extend_from_slice(others.split_at(other).1)?;
    Ok(list)
}

// The place behind this one where this number stands here, else this one.
fn behind(list: &[u32], at: usize, n: u32) -> usize
    requires { at < length list.now }
    ensures { result ≡ (if slice_index list.now at == n then at + 1 else at) }
{
    if list[at] == n { at + 1 } else { at }
}
