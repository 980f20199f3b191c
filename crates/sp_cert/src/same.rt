// Whether matches tell of runs.
ghost use Rattle.std.specs.Prelude.{◌≡◌, ◌↔◌, ℕ, List, map, IsTrue};
ghost use Rattle.std.specs.List.{All};
ghost use Rattle.sp_cert.specs.Checking.{TellsOf, TellOf};

use sp_plan::{Match, Places};
use sp_scan::Found;

// Whether two names with their numbers are the same.
fn same_pair(one: &(u8, Places), other: &(u8, Places)) -> bool
    ensures { IsTrue result ↔ (one.now ≡ other.now) }
{
    one.0 == other.0 && one.1.list() == other.1.list()
}

// Whether two lists of names with their numbers are the same.
fn same_pairs(ones: &[(u8, Places)], others: &[(u8, Places)]) -> bool
    ensures { IsTrue result ↔ (ones.now ≡ others.now) }
{
    if ones.len() != others.len() {
        return false;
    }
    for place in 0..ones.len() {
        if !same_pair(&ones[place], &others[place]) {
            return false;
        }
    }
    true
}

// Whether a match of the window tells of the run, whatever the match's number.
fn tells_of(window: u32, one: &Match, run: &Found) -> bool
    ensures { IsTrue result ↔ TellsOf window one.now run.now }
{
    one.window == window
        && one.used.list() == run.used.list()
        && same_pairs(one.bound.as_slice(), run.bound.as_slice())
}

/// Whether these are matches of the window that tell of the runs, one of each in their order, whatever the
/// numbers of the matches.
pub(crate) fn tell_of(window: u32, matches: &[Match], runs: &[Found]) -> bool
    ensures { IsTrue result ↔ TellOf window matches.now runs.now }
{
    if matches.len() != runs.len() {
        return false;
    }
    for place in 0..matches.len() {
        if !tells_of(window, &matches[place], &runs[place]) {
            return false;
        }
    }
    true
}
