ghost use Rattle.std.specs.Prelude.{◌≡◌, ◌<◌, ◌≤◌, [], ◌∷◌, All, map, length};
ghost use Rattle.sp_base.specs.Limits.{whole_share};
ghost use Rattle.sp_chance.specs.Matrices.{at, transitions};
ghost use Rattle.sp_chance.specs.Counted.{HasRows, SameRows, IsMove, AreCounted, AreAdded, HaveRoom, decoded, moved_by};

use crate::matrix::{STATES, WHOLE, settle};
use crate::pairs::{Pairs, decode};

// Where no pair tells of a state, half of it goes one state down.
const HALF: u32 = 32_768;

/// The first rows, so many, of the matrix of one step, of at most 256 pairs of states; what was counted is left
/// in `counts`.
pub(crate) fn write_transitions(pairs: &Pairs, rows: usize, counts: &mut [u32], target: &mut [u32])
    requires moves { All IsMove pairs.now }
    requires most { length pairs.now ≤ 256 }
    requires rows { rows ≤ 33 }
    requires counts { length counts.old ≡ 1089 }
    requires target { length target.old ≡ 1089 }
    ensures value { SameRows rows target.new (transitions pairs.now) }
    ensures matrix { HasRows rows target.new }
{
    count(pairs, counts);
    for cell in 0..rows * STATES {
        target[cell] = part(counts, cell / STATES, cell % STATES);
    }
    settle(target, rows);
}

// Counts the pairs: off the diagonal those from one state to the other, on it all those from a state.
fn count(pairs: &Pairs, counts: &mut [u32])
    requires moves { All IsMove pairs.now }
    requires most { length pairs.now ≤ 256 }
    requires size { length counts.old ≡ 1089 }
    ensures { AreCounted pairs.now counts.new }
{
    counts.fill(0);
    count_all(pairs.codes(), counts);
}

fn count_all(codes: &[u16], counts: &mut [u32])
    requires moves { All IsMove (map decoded codes.now) }
    requires size { length counts.old ≡ 1089 }
    requires room { HaveRoom (length codes.now) counts.old }
    ensures { AreAdded (map decoded codes.now) counts.old counts.new }
{
    for code in codes {
        let (from, to) = decode(*code);
        count_one(counts, from, to);
    }
}

fn count_one(counts: &mut [u32], from: usize, to: usize)
    requires size { length counts.old ≡ 1089 }
    requires from { from < 33 }
    requires to { to < 33 }
    requires room { HaveRoom 1 counts.old }
    ensures { AreAdded ((from, to) ∷ []) counts.old counts.new }
{
    counts[from * STATES + from] += 1;
    if from != to {
        counts[from * STATES + to] += 1;
    }
}

// The part of the pairs from a row's state that leads to the column's.
fn part(counts: &[u32], row: usize, column: usize) -> u32
    requires size { length counts.now ≡ 1089 }
    requires row { row < 33 }
    requires column { column < 33 }
    requires most { at counts.now row column ≤ at counts.now row row }
    ensures value { result ≡ moved_by counts.now row column }
    ensures most { result ≤ whole_share }
{
    let leaving = counts[row * STATES + row];
    if leaving == 0 {
        return if column + 1 == row { HALF } else { 0 };
    }
    let count = u64::from(counts[row * STATES + column]);
    (count * WHOLE / u64::from(leaving)) as u32
}
