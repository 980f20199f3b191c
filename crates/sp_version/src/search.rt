// The least number of a part of a rising list that is not among others.
ghost use Rattle.std.specs.Prelude.{◌≡◌, ◌+◌, ◌&&◌, not, nat_le, nat_lt};
ghost use Rattle.std.specs.List.Sorted.{IsStrictlyIncreasing};
ghost use Rattle.sp_base.specs.Numbers.{is_among};
ghost use Rattle.sp_base.specs.Place.{IsPlace};
ghost use Rattle.sp_group.specs.Rising.{least};
ghost use Rattle.sp_version.specs.Reads.{least_unskipped};

use sp_base::Numbers;

// How many numbers of a rising list are below this one.
fn place(list: &[u32], n: u32) -> usize
    requires { IsStrictlyIncreasing list.now }
    ensures { IsPlace n list.now result }
{
    match list.binary_search(&n) {
        Ok(at) => at,
        Err(at) => at,
    }
}

// Whether a number is among these. It is seen at the place of the next one, if it stands there, and else searched; from then
// on the next one's place is that behind it.
fn has_next(numbers: &Numbers, next: &mut usize, n: u32) -> bool
    ensures { result ≡ is_among numbers.now.list n }
{
    let list = numbers.list();
    if *next < list.len() && list[*next] == n {
        *next += 1;
        return true;
    }
    if !numbers.has(n) {
        return false;
    }
    *next = place(list, n) + 1;
    true
}

// The least number of the rising list that is one of so many from `first` on, and not skipped.
pub(crate) fn least_among(list: &[u32], first: u32, count: u32, skipped: &Numbers) -> Option<u32>
    requires { IsStrictlyIncreasing list.now }
    ensures { result
        ≡ least
        (λ i. is_among list.now i
        && (nat_le first i && nat_lt i (first + count) && not (is_among skipped.now.list i))) first
        count }
{
    let mut at = place(list, first);
    let mut next = place(skipped.list(), first);
    while at < list.len() && list[at] - first < count {
        if !has_next(skipped, &mut next, list[at]) {
            return Some(list[at]);
        }
        at += 1;
    }
    None
}

/// The least of these numbers that is one of so many from `first` on, and is not skipped; None exactly where
/// there is none. Takes no memory.
pub fn least_unskipped(numbers: &Numbers, first: u32, count: u32, skipped: &Numbers) -> Option<u32>
    ensures { result ≡ least_unskipped numbers.now.list first count skipped.now.list }
{
    least_among(numbers.list(), first, count, skipped)
}
