// Sets of runs as bits of a number.
ghost use Rattle.std.specs.Prelude.{◌≡◌, ℕ, ◌<◌, ◌≤◌, ◌||◌, false, length, pos, slice_index_or, int_lt};
ghost use Rattle.std.specs.Ordering.{int_eq};
ghost use Rattle.sp_plan.specs.Masks.{has};

/// Whether a mask has the bit of a run.
#[inline(always)]
pub fn has_bit(mask: u64, run: usize) -> bool
    requires { run < 64 }
    ensures { result ≡ has mask run }
{
    (mask >> run) & 1 == 1
}

/// A mask with the bit of a run too, where this is so. Its other bits stay.
#[inline(always)]
pub fn with_bit(mask: u64, run: usize, is: bool) -> u64
    requires { run < 64 }
    ensures same { has result run ≡ (has mask run || is) }
    ensures others { (other : ℕ) → (other ≡ run → ⊥) → has result other ≡ has mask other }
{
    mask | (u64::from(is) << run)
}

/// A mask that has the bit of a run where this is so, and else lacks it. Its other bits stay.
#[inline(always)]
pub fn put_bit(mask: u64, run: usize, is: bool) -> u64
    requires { run < 64 }
    ensures same { has result run ≡ is }
    ensures others { (other : ℕ) → other < 64 → (other ≡ run → ⊥) → has result other ≡ has mask other }
{
    if is {
        with_bit(mask, run, true)
    } else {
        without_bit(mask, run)
    }
}

// A mask without the bit of a run.
#[inline(always)]
fn without_bit(mask: u64, run: usize) -> u64
    requires { run < 64 }
    ensures same { has result run ≡ false }
    ensures others { (other : ℕ) → other < 64 → (other ≡ run → ⊥) → has result other ≡ has mask other }
{
    mask & !(1 << run)
}

// The runs whose values are less. The mask is shifted, so that the bit of each value comes in at the same place.
pub(crate) fn below(values: &[i64], than: i64) -> u64
    requires { length values.now ≤ 64 }
    ensures { (run : ℕ) → run < length values.now
        → has result run ≡ int_lt (slice_index_or values.now run (pos 0)) than }
{
    let mut mask = 0;
    let mut run = values.len();
    while run > 0 {
        run -= 1;
        mask = (mask << 1) | u64::from(values[run] < than);
    }
    mask
}

// The runs whose values are this.
pub(crate) fn equal(values: &[i64], one: i64) -> u64
    requires { length values.now ≤ 64 }
    ensures { (run : ℕ) → run < length values.now
        → has result run ≡ int_eq one (slice_index_or values.now run (pos 0)) }
{
    let mut mask = 0;
    let mut run = values.len();
    while run > 0 {
        run -= 1;
        mask = (mask << 1) | u64::from(one == values[run]);
    }
    mask
}
