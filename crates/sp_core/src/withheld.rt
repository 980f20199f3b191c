// What a parent keeps from a child: what its matches used, and the groups that the child's label names.
ghost use Rattle.std.specs.Prelude.{◌≡◌, ℕ, ◌||◌, OnOk};
ghost use Rattle.sp_base.specs.Numbers.{is_among};
ghost use Rattle.sp_core.specs.Withheld.{is_kept_back, is_kept_within, least_kept_back};

use crate::Memory;
use crate::conflicts::lesser;
use sp_base::Numbers;
use sp_group::Label;
use sp_match::Run;
use sp_version::{Version, least_unskipped};
use std::alloc::Global;

// The least of so many numbers from `first` on that a parent keeps from a child of that label, and that is
// not skipped.
pub(crate) fn least_withheld(
    parent: &Version,
    label: &Label,
    first: u32,
    count: u32,
    skipped: &Numbers,
) -> Option<u32>
    ensures { result ≡ least_kept_back parent.now label.now first count skipped.now.list }
{
    let mut found = least_unskipped(&parent.used, first, count, skipped);
    for run in parent.matcher.get().open_runs() {
        if label.has(run.number) {
            found = lesser(found, least_unskipped(&run.used, first, count, skipped));
        }
    }
    found
}

// Takes in those of so many numbers from `first` on that a parent keeps from a child of that label.
pub(crate) fn withheld_within(
    alloc: Global,
    parent: &Version,
    label: &Label,
    first: u32,
    count: u32,
    numbers: &mut Numbers,
) -> Result<(), Memory>
    ensures { OnOk result
        ((i : ℕ)
        → is_among numbers.new.list i
        ≡ (is_among numbers.old.list i || is_kept_within parent.now label.now first count i)) }
{
    numbers.union(alloc, &parent.used.cut_to(alloc, first, count)?)?;
    for run in parent.matcher.get().open_runs() {
        if label.has(run.number) {
            numbers.union(alloc, &run.used.cut_to(alloc, first, count)?)?;
        }
    }
    Ok(())
}
