// What a held side comes to for each of some runs.
ghost use Rattle.std.specs.Prelude.{◌≡◌, ℕ, ◌<◌, ◌≤◌, length, pos, slice_index_or, int_le, int_lt, vec_len, IfOk, OnErr, OnOk};
ghost use Rattle.std.specs.Ordering.{int_eq};
ghost use Rattle.sp_plan.specs.Held.{IsInside, put};
ghost use Rattle.sp_plan.specs.Masks.{has};
ghost use Rattle.sp_plan.specs.Values;

use crate::masks::{below, equal};
use crate::{Compare, Memory};
use std::alloc::Global;
use std::marker::Model;

/// What a held side comes to for each of at most 64 runs, in their order. Contracts see the list. Beside it
/// stand two numbers between which all of these lie.
#[derive(Drop)]
pub struct HeldColumn {
    values: Vec<i64>,
    least: i64,
    greatest: i64,
}

impl Model for HeldColumn {
    ghost use Rattle.std.specs.Prelude.{ℤ, List};
    ghost use Rattle.sp_plan.specs.Holding.{Between};

    ghost Value = { List ℤ };

    ghost view = { λ c. c.values.items };

    ghost invariant = { λ c. Between c.values.items c.least c.greatest };
}

// The value at the place becomes this one; where there is none it is put behind the others.
fn put_value(values: &mut Vec<i64>, at: usize, value: i64) -> Result<(), Memory>
    ensures put { OnOk result (values.new.items ≡ put values.old.items at value) }
    ensures err { OnErr result (values.new.items ≡ values.old.items) }
{
    if at < values.len() {
        values[at] = value;
    } else {
        values.push(value)?;
    }
    Ok(())
}

impl HeldColumn {
    // These values, of at most 64 runs.
    pub(crate) fn of(values: Vec<i64>) -> HeldColumn
        requires { vec_len values ≤ 64 }
        ensures { result ≡ values.items }
    {
        let mut least = i64::MAX;
        let mut greatest = i64::MIN;
        for value in &values {
            least = least.min(*value);
            greatest = greatest.max(*value);
        }
        HeldColumn {
            values,
            least,
            greatest,
        }
    }

    /// The same columns once more.
    pub fn copies(alloc: Global, columns: &[HeldColumn]) -> Result<Vec<HeldColumn>, Memory>
        ensures { IfOk result (λ copies. copies.items ≡ columns.now) }
    {
        let mut copies = Vec::with_capacity(alloc, columns.len())?;
        for column in columns {
            copies.push_reserved(column.copy(alloc)?);
        }
        Ok(copies)
    }

    // The same column once more.
    fn copy(&self, alloc: Global) -> Result<HeldColumn, Memory>
        ensures { IfOk result (λ column. column ≡ self.now) }
    {
        Ok(HeldColumn {
            values: self.values.as_slice().to_vec(alloc)?,
            least: self.least,
            greatest: self.greatest,
        })
    }

    // The run at this place has this value from now on; it may be one more run, behind the others. Takes memory for
    // such a one alone, and after want of it the column is as before.
    pub(crate) fn put(&mut self, run: usize, value: i64) -> Result<(), Memory>
        requires { run < 64 }
        ensures put { OnOk result (self.new ≡ put self.old run value) }
        ensures err { OnErr result (self.new ≡ self.old) }
    {
        put_value(&mut self.values, run, value)?;
        self.least = self.least.min(value);
        self.greatest = self.greatest.max(value);
        Ok(())
    }

    // The runs whose values are less.
    fn below(&self, than: i64) -> u64
        ensures { (run : ℕ) → run < length self.now
            → has result run ≡ int_lt (slice_index_or self.now run (pos 0)) than }
    {
        if self.greatest < than {
            u64::MAX
        } else if than <= self.least {
            0
        } else {
            below(&self.values, than)
        }
    }

    // The runs whose values are at most this.
    fn at_most(&self, most: i64) -> u64
        requires { IsInside most }
        ensures { (run : ℕ) → run < length self.now
            → has result run ≡ int_le (slice_index_or self.now run (pos 0)) most }
    {
        self.below(most + 1)
    }

    // The runs whose values are this.
    fn equal(&self, one: i64) -> u64
        ensures { (run : ℕ) → run < length self.now
            → has result run ≡ int_eq one (slice_index_or self.now run (pos 0)) }
    {
        if one < self.least || self.greatest < one {
            0
        } else {
            equal(&self.values, one)
        }
    }

    // The runs with whose values a number compares so.
    pub(crate) fn compared(&self, by: Compare, one: i64) -> u64
        requires { IsInside one }
        ensures { (run : ℕ) → run < 64 → run < length self.now
            → has result run ≡ Values.compares by one (slice_index_or self.now run (pos 0)) }
    {
        match by {
            Compare::Equal => self.equal(one),
            Compare::Unequal => !self.equal(one),
            Compare::Less => !self.at_most(one),
            Compare::AtMost => !self.below(one),
            Compare::Greater => self.below(one),
            Compare::AtLeast => self.at_most(one),
        }
    }
}
