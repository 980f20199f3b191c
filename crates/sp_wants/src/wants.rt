ghost use Rattle.std.specs.Prelude.{◌≡◌, false, ◌==◌, ◌∷◌, [], ◌++◌, ◌^◌, ◌-◌, min, length, replicate, IsTrue, IfOk, OnOk, OnErr};
ghost use Rattle.sp_wants.specs.Stretches.{NoneEmpty, all_pairs, repeated};

use crate::Stretch;
use sp_base::Memory;
use std::alloc::{AllocError, Global};
use std::marker::Model;

/// For runs, in their order, how many events each wanted at least before an event, and how many after it. Contracts
/// see the pairs. Equal pairs that are added one after another take the room of one.
#[derive(Drop)]
pub struct Wants {
    stretches: Vec<Stretch>,
}

impl Model for Wants {
    ghost use Rattle.std.specs.Prelude.{ℕ, List};
    ghost use Rattle.sp_wants.specs.Stretches.{NoneEmpty, all_pairs};

    ghost Value = { List (ℕ × ℕ) };

    ghost view = { λ w. all_pairs w.stretches.items };

    ghost invariant = { λ w. NoneEmpty w.stretches.items };
}

// Makes the last stretch longer, where it is of this pair and so many can be added. Whether it is so.
fn lengthen(stretches: &mut Vec<Stretch>, before: u32, after: u32, times: usize) -> bool
    requires { NoneEmpty stretches.old.items }
    ensures longer { IsTrue result → all_pairs stretches.new.items
        ≡ all_pairs stretches.old.items ++ replicate times (before, after) }
    ensures same { result ≡ false → stretches.new.items ≡ stretches.old.items }
    ensures some { NoneEmpty stretches.new.items }
{
    if stretches.is_empty() {
        return false;
    }
    let at = stretches.len() - 1;
    let last = stretches[at];
    if last.before != before || last.after != after || last.times > usize::MAX - times {
        return false;
    }
    stretches[at].times = last.times + times;
    true
}

// Adds stretches so many times, one after another. After want of memory all is as before.
fn repeat(stretches: &mut Vec<Stretch>, more: &[Stretch], times: u32) -> Result<(), Memory>
    requires some { NoneEmpty stretches.old.items }
    requires more { NoneEmpty more.now }
    ensures some { NoneEmpty stretches.new.items }
    ensures ok { OnOk result
        (stretches.new.items ≡ stretches.old.items ++ repeated times more.now) }
    ensures err { OnErr result (stretches.new.items ≡ stretches.old.items) }
{
    let before = stretches.len();
    // Room for all of it is made once.
    stretches.reserve(more.len().saturating_mul(times as usize))?;
    for _ in 0..times {
        if stretches.extend_from_slice(more).is_err() {
            stretches.truncate(before);
            return Err(AllocError);
        }
    }
    Ok(())
}

impl Wants {
    /// None. Takes no memory.
    pub fn new(alloc: Global) -> Wants
        ensures { result ≡ [] }
    {
        Wants {
            stretches: Vec::new(alloc),
        }
    }

    /// The same list once more.
    pub fn copy(&self, alloc: Global) -> Result<Wants, Memory>
        ensures { IfOk result (λ w. w ≡ self.now) }
    {
        Ok(Wants {
            stretches: self.stretches.to_vec(alloc)?,
        })
    }

    /// Forgets all. The room is kept, and no memory is taken.
    pub fn clear(&mut self)
        ensures { self.new ≡ [] }
    {
        self.stretches.clear();
    }

    /// Adds a pair for so many runs. After want of memory all is as before.
    pub fn push_times(&mut self, before: u32, after: u32, times: usize) -> Result<(), Memory>
        ensures added { OnOk result (self.new ≡ self.old ++ replicate times (before, after)) }
        ensures err { OnErr result (self.new ≡ self.old) }
    {
        if times == 0 || lengthen(&mut self.stretches, before, after, times) {
            return Ok(());
        }
        self.stretches.push(Stretch {
            before,
            after,
            times,
        })?;
        Ok(())
    }

    /// Adds a pair. After want of memory all is as before.
    pub fn push(&mut self, before: u32, after: u32) -> Result<(), Memory>
        ensures added { OnOk result (self.new ≡ self.old ++ (before, after) ∷ []) }
        ensures err { OnErr result (self.new ≡ self.old) }
    {
        self.push_times(before, after, 1)
    }

    /// Moves all of another list behind this one. After want of memory both are as before.
    pub fn append(&mut self, other: &mut Wants) -> Result<(), Memory>
        ensures added { OnOk result (self.new ≡ self.old ++ other.old) }
        ensures emptied { OnOk result (other.new ≡ []) }
        ensures err { OnErr result (self.new ≡ self.old) }
        ensures err_other { OnErr result (other.new ≡ other.old) }
    {
        self.stretches.extend_from_slice(&other.stretches)?;
        other.stretches.clear();
        Ok(())
    }

    /// Adds another list behind this one, so many times. After want of memory all is as before.
    pub fn extend_times(&mut self, other: &Wants, times: u32) -> Result<(), Memory>
        ensures added { OnOk result (self.new ≡ self.old ++ repeated times other.now) }
        ensures err { OnErr result (self.new ≡ self.old) }
    {
        let stretches = other.stretches.as_slice();
        if stretches.len() == 1 {
            let one = stretches[0];
            if let Some(all) = one.times.checked_mul(times as usize) {
                return self.push_times(one.before, one.after, all);
            }
        }
        repeat(&mut self.stretches, stretches, times)
    }

    /// Whether there is none.
    pub fn is_empty(&self) -> bool
        ensures { result ≡ (length self.now == 0) }
    {
        self.stretches.is_empty()
    }

    /// For how many runs there is a pair, as far as the number holds it.
    pub fn count(&self) -> u64
        ensures { result ≡ min (length self.now) (2 ^ 64 - 1) }
    {
        let mut count = 0u64;
        for stretch in &self.stretches {
            count = count.saturating_add(stretch.times as u64);
        }
        count
    }

    /// The pairs, stretch by stretch.
    pub fn stretches(&self) -> &[Stretch]
        ensures pairs { all_pairs result.now ≡ self.now }
        ensures some { NoneEmpty result.now }
    {
        &self.stretches
    }

    /// Whether both are held as the same stretches, and so are the same.
    pub fn same(&self, other: &Wants) -> bool
        ensures { IsTrue result → self.now ≡ other.now }
    {
        self.stretches == other.stretches
    }
}
