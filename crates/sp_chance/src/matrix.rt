ghost use Rattle.std.specs.Prelude.{◌≡◌, ℕ, ◌+◌, ◌*◌, ◌-◌, ◌/◌, ◌^◌, ◌<◌, ◌≤◌, length, slice_index};
ghost use Rattle.sp_base.specs.Limits.{whole_share};
ghost use Rattle.sp_chance.specs.Matrices.{total, at, others, joined, settled, product};
ghost use Rattle.sp_chance.specs.Counted.{HasRows, SameRows};

use sp_base::limits::WHOLE_SHARE;

/// The states are 0 to 32, the events still wanted.
pub(crate) const STATES: usize = 33;

/// The numbers of a matrix: a row for each state, one behind the other.
pub(crate) const CELLS: usize = STATES * STATES;

/// The whole, in 65,536ths: the sum of each row.
pub(crate) const WHOLE: u64 = WHOLE_SHARE as u64;

/// The first rows, so many, of the matrix of the steps of one behind those of the other. No row needs one that
/// is behind it.
pub(crate) fn multiply(left: &[u32], right: &[u32], rows: usize, target: &mut [u32])
    requires left { HasRows rows left.now }
    requires right { HasRows rows right.now }
    requires rows { rows ≤ 33 }
    requires size { length target.old ≡ 1089 }
    ensures value { SameRows rows target.new (product left.now right.now) }
    ensures matrix { HasRows rows target.new }
{
    for row in 0..rows {
        join(left, right, row, target);
    }
    settle(target, rows);
}

// Writes a row: for each column the sum of the products, rounded down.
fn join(left: &[u32], right: &[u32], row: usize, target: &mut [u32])
    requires left { HasRows (row + 1) left.now }
    requires right { HasRows (row + 1) right.now }
    requires row { row < 33 }
    requires size { length target.old ≡ 1089 }
    ensures here { (j : ℕ) → j < 33 → at target.new row j ≡ joined left.now right.now row j }
    ensures before { (n : ℕ) → n < row * 33 → slice_index target.new n ≡ slice_index target.old n }
{
    let mut sums = [0; STATES];
    sum_up(left, right, row, &mut sums);
    write_parts(&sums, row, target);
}

// Adds the products for each column. Behind the row's own state there is nothing, since no step leads up.
fn sum_up(left: &[u32], right: &[u32], row: usize, sums: &mut [u64; STATES])
    requires left { HasRows (row + 1) left.now }
    requires right { HasRows (row + 1) right.now }
    requires row { row < 33 }
    requires none { (j : ℕ) → j < 33 → slice_index sums.old j ≡ 0 }
    ensures { (j : ℕ) → j < 33 →
        slice_index sums.new j ≡ total 33 (λ k. at left.now row k * at right.now k j) }
{
    for between in 0..row + 1 {
        let times = left[row * STATES + between];
        add_row(u64::from(times), right, between, sums);
    }
}

// Adds a row so many times. Most often that is none.
fn add_row(times: u64, matrix: &[u32], row: usize, sums: &mut [u64; STATES])
    requires matrix { HasRows (row + 1) matrix.now }
    requires row { row < 33 }
    requires room { (j : ℕ) → j < 33
        → slice_index sums.old j + times * at matrix.now row j < 2 ^ 64 }
    ensures { (j : ℕ) → j < 33 →
        slice_index sums.new j ≡ slice_index sums.old j + times * at matrix.now row j }
{
    if times == 0 {
        return;
    }
    for column in 0..row + 1 {
        sums[column] += times * u64::from(matrix[row * STATES + column]);
    }
}

// Writes sums of products as a row of parts of the whole, rounded down.
fn write_parts(sums: &[u64; STATES], row: usize, target: &mut [u32])
    requires most { (j : ℕ) → j < 33 → slice_index sums.now j ≤ whole_share * whole_share }
    requires row { row < 33 }
    requires size { length target.old ≡ 1089 }
    ensures here { (j : ℕ) → j < 33 → at target.new row j ≡ slice_index sums.now j / whole_share }
    ensures before { (n : ℕ) → n < row * 33 → slice_index target.new n ≡ slice_index target.old n }
{
    for column in 0..STATES {
        target[row * STATES + column] = (sums[column] / WHOLE) as u32;
    }
}

/// Writes the diagonal of the first rows, so many: what each row's others leave of the whole. So nothing is
/// lost by rounding.
pub(crate) fn settle(target: &mut [u32], rows: usize)
    requires size { length target.old ≡ 1089 }
    requires rows { rows ≤ 33 }
    requires falls { (i j : ℕ) → i < rows → i < j → j < 33 → at target.old i j ≡ 0 }
    requires most { (i : ℕ) → i < rows → total 33 (others (at target.old) i) ≤ whole_share }
    ensures { SameRows rows target.new (settled (at target.old)) }
{
    for state in 0..rows {
        target[state * STATES + state] = rest(target, state);
    }
}

// What a row leaves of the whole, but for its number on the diagonal. Behind that there is nothing.
fn rest(matrix: &[u32], row: usize) -> u32
    requires size { length matrix.now ≡ 1089 }
    requires row { row < 33 }
    requires falls { (j : ℕ) → row < j → j < 33 → at matrix.now row j ≡ 0 }
    requires most { total 33 (others (at matrix.now) row) ≤ whole_share }
    ensures { result ≡ whole_share - total 33 (others (at matrix.now) row) }
{
    let mut rest = WHOLE;
    for column in 0..row {
        rest -= u64::from(matrix[row * STATES + column]);
    }
    rest as u32
}
