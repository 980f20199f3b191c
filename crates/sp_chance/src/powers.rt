ghost use Rattle.std.specs.Prelude.{◌≡◌, ℕ, ◌+◌, ◌*◌, ◌<◌, ◌≤◌, All, length, IfOk, slice_index};
ghost use Rattle.sp_chance.specs.Matrices.{at, first, power};
ghost use Rattle.sp_chance.specs.Counted.{HasRows, SameRows, HasColumns, IsMove};

use crate::matrix::{CELLS, STATES, multiply};
use crate::moves::write_transitions;
use crate::pairs::Pairs;
use sp_base::Memory;
use std::alloc::Global;
use std::marker::Model;

/// How many powers are kept: those of 16, 32 and so on up to 256 events.
pub(crate) const POWERS: usize = 16;

/// For each power, how likely each of the first states, so many, is to come to 0, beside the pairs that tell it.
/// Contracts see these pairs, and how many states. Most patterns want few events, and no state needs one that is
/// above it, so only those are worked out that were asked for.
#[derive(Drop)]
pub(crate) struct Powers {
    pairs: Pairs,
    rows: usize,
    columns: Vec<u32>,
    // The matrix of 16 events, and two more in which powers are made in turn.
    first: Vec<u32>,
    current: Vec<u32>,
    next: Vec<u32>,
}

impl Model for Powers {
    ghost use Rattle.sp_chance.specs.Learned.{AtHand, AreAtHand};

    ghost Value = { AtHand };

    ghost view = { λ p. record { pairs = p.pairs; rows = p.rows } };

    ghost invariant = { λ p. AreAtHand (record { pairs = p.pairs; rows = p.rows })
        p.columns.items p.first.items p.current.items p.next.items };
}

impl Powers {
    /// Those of no state yet, with room for all, so that working them out takes no memory.
    pub(crate) fn new(alloc: Global) -> Result<Powers, Memory> {
        let columns = vec![in alloc; 0; POWERS * STATES]?;
        let first = vec![in alloc; 0; CELLS]?;
        let current = vec![in alloc; 0; CELLS]?;
        let next = vec![in alloc; 0; CELLS]?;
        Ok(Powers {
            pairs: Pairs::new(),
            rows: 0,
            columns,
            first,
            current,
            next,
        })
    }

    /// How likely a state is to come to 0 in the events of a power, as these pairs tell. The numbers are
    /// worked out where those at hand are of other pairs, or of fewer states.
    pub(crate) fn number(&mut self, pairs: &Pairs, steps: usize, left: usize) -> u32
        requires moves { All IsMove pairs.now }
        requires most { length pairs.now ≤ 256 }
        requires steps { steps < 16 }
        requires left { left ≤ 32 }
        ensures { result ≡ at (power (first pairs.now) steps) left 0 }
    {
        if left >= self.rows || !self.pairs.are_those(pairs) {
            self.build(pairs, left);
        }
        self.get(steps, left)
    }

    // How likely a state is to come to 0 in the events of a power.
    fn get(&self, steps: usize, left: usize) -> u32
        requires steps { steps < 16 }
        requires left { left < self.now.rows }
        ensures { result ≡ at (power (first self.now.pairs) steps) left 0 }
    {
        self.columns[steps * STATES + left]
    }

    // Works the numbers of these pairs out, for this state too, and for as many as before.
    fn build(&mut self, pairs: &Pairs, left: usize)
        requires moves { All IsMove pairs.now }
        requires most { length pairs.now ≤ 256 }
        requires left { left ≤ 32 }
        ensures pairs { self.new.pairs ≡ pairs.now }
        ensures rows { left < self.new.rows }
    {
        self.pairs.copy_from(pairs);
        self.rows = self.rows.max(left + 1);
        work_out(
            &self.pairs,
            self.rows,
            &mut self.first,
            &mut self.current,
            &mut self.next,
            &mut self.columns,
        );
    }
}

/// How likely a state is to come to 0 in the events of a power, as these pairs tell, with nothing kept.
#[cold]
#[inline(never)]
pub(crate) fn worked_out(pairs: &Pairs, steps: usize, left: usize) -> u32
    requires moves { All IsMove pairs.now }
    requires most { length pairs.now ≤ 256 }
    requires steps { steps < 16 }
    requires left { left ≤ 32 }
    ensures { result ≡ at (power (first pairs.now) steps) left 0 }
{
    let mut first = [0; CELLS];
    let mut current = [0; CELLS];
    let mut next = [0; CELLS];
    let mut columns = [0; POWERS * STATES];
    work_out(
        pairs,
        left + 1,
        &mut first,
        &mut current,
        &mut next,
        &mut columns,
    );
    columns[steps * STATES + left]
}

// Works the numbers of these pairs out, for the first states, so many. What is left in the matrices is of no use.
fn work_out(
    pairs: &Pairs,
    rows: usize,
    one: &mut [u32],
    current: &mut [u32],
    next: &mut [u32],
    columns: &mut [u32],
)
    requires moves { All IsMove pairs.now }
    requires most { length pairs.now ≤ 256 }
    requires rows { rows ≤ 33 }
    requires one { length one.old ≡ 1089 }
    requires current { length current.old ≡ 1089 }
    requires next { length next.old ≡ 1089 }
    requires columns { length columns.old ≡ 528 }
    ensures { HasColumns rows (first pairs.now) columns.new }
{
    write_first(pairs, rows, one, current, next);
    write_columns(one, rows, current, next, columns);
}

// The first rows, so many, of the matrix of sixteen steps: that of one, squared four times.
fn write_first(
    pairs: &Pairs,
    rows: usize,
    target: &mut [u32],
    current: &mut [u32],
    next: &mut [u32],
)
    requires moves { All IsMove pairs.now }
    requires most { length pairs.now ≤ 256 }
    requires rows { rows ≤ 33 }
    requires target { length target.old ≡ 1089 }
    requires current { length current.old ≡ 1089 }
    requires next { length next.old ≡ 1089 }
    ensures value { SameRows rows target.new (first pairs.now) }
    ensures matrix { HasRows rows target.new }
{
    write_transitions(pairs, rows, next, current);
    multiply(current, current, rows, next);
    multiply(next, next, rows, current);
    multiply(current, current, rows, next);
    multiply(next, next, rows, target);
}

// Of each power of a matrix the first column, for the first rows, so many. What is left in `current` and `next`
// is of no use.
fn write_columns(
    one: &[u32],
    rows: usize,
    current: &mut [u32],
    next: &mut [u32],
    columns: &mut [u32],
)
    requires one { HasRows rows one.now }
    requires rows { rows ≤ 33 }
    requires current { length current.old ≡ 1089 }
    requires next { length next.old ≡ 1089 }
    requires columns { length columns.old ≡ 528 }
    ensures { HasColumns rows one.now columns.new }
{
    keep_column(one, rows, 0, columns);
    current.copy_from_slice(one);
    for power in 1..POWERS {
        multiply(current, one, rows, next);
        current.copy_from_slice(next);
        keep_column(current, rows, power, columns);
    }
}

// Keeps the first number of the first rows, so many.
fn keep_column(matrix: &[u32], rows: usize, power: usize, columns: &mut [u32])
    requires matrix { length matrix.now ≡ 1089 }
    requires rows { rows ≤ 33 }
    requires columns { length columns.old ≡ 528 }
    requires power { power < 16 }
    ensures kept { (i : ℕ) → i < rows
        → slice_index columns.new (power * 33 + i) ≡ at matrix.now i 0 }
    ensures before { (n : ℕ) → n < power * 33
        → slice_index columns.new n ≡ slice_index columns.old n }
{
    for state in 0..rows {
        columns[power * STATES + state] = matrix[state * STATES];
    }
}
