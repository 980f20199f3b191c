ghost use Rattle.std.specs.Prelude.{◌≡◌, ◌<◌, ◌≤◌, ◌↔◌, IsTrue, length, All, filter};
ghost use Rattle.std.specs.List.Sorted.{IsStrictlyIncreasing};
ghost use Rattle.sp_base.specs.Numbers.{is_within, is_among};
ghost use Rattle.sp_base.specs.Place.{IsPlace};

/// Whether numbers rise strictly.
pub(crate) fn rises(list: &[u32]) -> bool
    ensures { IsTrue result ↔ IsStrictlyIncreasing list.now }
{
    for i in 1..list.len() {
        if list[i - 1] >= list[i] {
            return false;
        }
    }
    true
}

/// How many numbers of a rising list are below this one. A number past the last one is told at once,
/// since most calls bring one; others are searched by halves.
pub(crate) fn place(list: &[u32], n: u32) -> usize
    requires { IsStrictlyIncreasing list.now }
    ensures { IsPlace n list.now result }
{
    if is_past(list, n) {
        return list.len();
    }
    match list.binary_search(&n) {
        Ok(at) => at,
        Err(at) => at,
    }
}

/// Whether a number is greater than all of a rising list.
pub(crate) fn is_past(list: &[u32], n: u32) -> bool
    requires { IsStrictlyIncreasing list.now }
    ensures { IsTrue result ↔ All (λ m. m < n) list.now }
{
    match list.last() {
        Some(last) => *last < n,
        None => true,
    }
}

/// Whether a number stands at its place.
pub(crate) fn is_at(list: &[u32], at: usize, n: u32) -> bool
    requires rising { IsStrictlyIncreasing list.now }
    requires place { IsPlace n list.now at }
    ensures { result ≡ is_among list.now n }
{
    at < list.len() && list[at] == n
}

/// The numbers of a rising list from `first` on and below `first + count`, also where that is past
/// every u32.
pub(crate) fn within(list: &[u32], first: u32, count: u32) -> &[u32]
    requires { IsStrictlyIncreasing list.now }
    ensures { result.now ≡ filter (is_within first count) list.now }
{
    let (_, rest) = list.split_at(place(list, first));
    match first.checked_add(count) {
        Some(end) => rest.split_at(place(rest, end)).0,
        None => rest,
    }
}
