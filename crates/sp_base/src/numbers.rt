ghost use Rattle.std.specs.Prelude.{◌≡◌, ℕ, ◌+◌, ◌-◌, ◌<◌, ◌≤◌, ◌==◌, ◌||◌, not, [], ◌∷◌, ◌++◌, IsTrue, IsOk, IfOk, IsSome, IsNone, IfSome, OnOk, OnErr, vec_len, vec_capacity, All, filter, length, take};
ghost use Rattle.std.specs.Option.{option_to_list};
ghost use Rattle.std.specs.List.Sorted.{IsStrictlyIncreasing};
ghost use Rattle.sp_base.specs.Numbers.{NumberList, is_within, is_among};

use crate::Memory;
use crate::merge::merged;
use crate::place::{is_at, is_past, place, rises, within};
use std::alloc::Global;
use std::marker::Model;

/// Numbers in strictly rising order. Contracts see `list`, the numbers, and `spare`, how many more can
/// be taken in without memory.
#[derive(Drop)]
pub struct Numbers {
    list: Vec<u32>,
}

impl Model for Numbers {
    ghost Value = { NumberList };

    ghost view = { λ s. record { list = s.list.items; spare = vec_capacity s.list - vec_len s.list } };

    ghost invariant = { λ s. IsStrictlyIncreasing s.list.items };
}

impl Numbers {
    /// No number. Takes no memory.
    pub fn new(alloc: Global) -> Numbers
        ensures list { result.list ≡ [] }
        ensures spare { result.spare ≡ 0 }
    {
        Numbers {
            list: Vec::new(alloc),
        }
    }

    /// The numbers of a list; None exactly where they don't rise strictly.
    pub fn from_list(alloc: Global, list: &[u32]) -> Result<Option<Numbers>, Memory>
        ensures value { IfOk result (λ numbers. IfSome numbers (λ n. n.list ≡ list.now)) }
        ensures some { IfOk result (λ numbers. IsSome numbers → IsStrictlyIncreasing list.now) }
        ensures none { IfOk result (λ numbers. IsNone numbers → ¬ IsStrictlyIncreasing list.now) }
    {
        if !rises(list) {
            return Ok(None);
        }
        Ok(Some(Numbers {
            list: list.to_vec(alloc)?,
        }))
    }

    /// Its numbers, rising strictly.
    pub fn list(&self) -> &[u32]
        ensures list { result.now ≡ self.now.list }
        ensures rising { IsStrictlyIncreasing result.now }
    {
        &self.list
    }

    /// Whether this number is among them.
    pub fn has(&self, n: u32) -> bool
        ensures { result ≡ is_among self.now.list n }
    {
        is_at(&self.list, place(&self.list, n), n)
    }

    /// Takes a number in, behind the others where it is greater than all of them. True exactly where it
    /// wasn't there. After want of memory, which comes only where nothing is spare, the list is as before.
    pub fn insert(&mut self, n: u32) -> Result<bool, Memory>
        ensures added { IfOk result (λ added. added ≡ not (is_among self.old.list n)) }
        ensures members { OnOk result
            ((m : ℕ) → is_among self.new.list m ≡ (m == n || is_among self.old.list m)) }
        ensures last { OnOk result
            (All (λ m. m < n) self.old.list → self.new.list ≡ self.old.list ++ n ∷ []) }
        ensures there { IsTrue (is_among self.old.list n) → self.new.list ≡ self.old.list }
        ensures rising { IsStrictlyIncreasing self.new.list }
        ensures err { OnErr result (self.new.list ≡ self.old.list) }
        ensures full { OnErr result (self.old.spare ≡ 0) }
        ensures spare { self.old.spare ≤ self.new.spare + 1 }
    {
        // Most calls bring a number past the last one.
        if is_past(&self.list, n) {
            self.list.push(n)?;
            return Ok(true);
        }
        let at = place(&self.list, n);
        if is_at(&self.list, at, n) {
            return Ok(false);
        }
        self.list.insert(at, n)?;
        Ok(true)
    }

    /// Takes a number in as `insert` does, without memory, where `reserve` made room before. At most one
    /// less is spare after it.
    pub fn put(&mut self, n: u32) -> bool
        requires { 0 < self.old.spare }
        ensures added { result ≡ not (is_among self.old.list n) }
        ensures members { (m : ℕ) → is_among self.new.list m
            ≡ (m == n || is_among self.old.list m) }
        ensures last { All (λ m. m < n) self.old.list → self.new.list ≡ self.old.list ++ n ∷ [] }
        ensures there { IsTrue (is_among self.old.list n) → self.new.list ≡ self.old.list }
        ensures rising { IsStrictlyIncreasing self.new.list }
        ensures spare { self.old.spare ≤ self.new.spare + 1 }
    {
        matches!(self.insert(n), Ok(true))
    }

    /// Makes room for so many more. The list stays in every case, and what is spare grows or stays.
    pub fn reserve(&mut self, more: u32) -> Result<(), Memory>
        ensures list { self.new.list ≡ self.old.list }
        ensures ok { OnOk result (more ≤ self.new.spare) }
        ensures spare { self.old.spare ≤ self.new.spare }
        ensures full { OnErr result (self.old.spare < more) }
    {
        self.list.reserve(more as usize)
    }

    /// Takes in all of the other's numbers. Where the other has none nothing is taken; after want of
    /// memory the list is as before.
    pub fn union(&mut self, alloc: Global, other: &Numbers) -> Result<(), Memory>
        ensures members { OnOk result
            ((n : ℕ) → is_among self.new.list n
            ≡ (is_among self.old.list n || is_among other.now.list n)) }
        ensures rising { IsStrictlyIncreasing self.new.list }
        ensures err { OnErr result (self.new.list ≡ self.old.list) }
        ensures empty_ok { other.now.list ≡ [] → IsOk result }
        ensures empty { other.now.list ≡ [] → self.new ≡ self.old }
    {
        match other.list.first() {
            None => Ok(()),
            Some(first) if is_past(&self.list, *first) => {
                self.list.extend_from_slice(&other.list)
            }
            Some(_) => {
                self.list = merged(alloc, &self.list, &other.list)?;
                Ok(())
            }
        }
    }

    /// Takes a number out, if it is among them. Takes no memory.
    pub fn remove(&mut self, n: u32)
        ensures { self.new.list ≡ filter (λ m. not (m == n)) self.old.list }
    {
        self.list.retain(|m| *m != n);
    }

    /// Takes the greatest number away, None where there is none. Takes no memory.
    pub fn pop(&mut self) -> Option<u32>
        ensures value { self.old.list ≡ self.new.list ++ option_to_list result }
        ensures list { self.new.list ≡ take (length self.old.list - 1) self.old.list }
    {
        self.list.pop()
    }

    /// Those from `first` on and below `first + count`, also where that is past every u32.
    pub fn cut_to(&self, alloc: Global, first: u32, count: u32) -> Result<Numbers, Memory>
        ensures { IfOk result (λ part. part.list ≡ filter (is_within first count) self.now.list) }
    {
        Ok(Numbers {
            list: within(&self.list, first, count).to_vec(alloc)?,
        })
    }

    /// The same numbers once more.
    pub fn copy(&self, alloc: Global) -> Result<Numbers, Memory>
        ensures { IfOk result (λ copy. copy.list ≡ self.now.list) }
    {
        Ok(Numbers {
            list: self.list.to_vec(alloc)?,
        })
    }

    /// Drops all numbers and keeps their room. Takes no memory.
    pub fn clear(&mut self)
        ensures list { self.new.list ≡ [] }
        ensures spare { self.old.spare ≤ self.new.spare }
    {
        self.list.clear();
    }
}
