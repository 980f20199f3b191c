ghost use Rattle.std.specs.Prelude.{◌≡◌, List, ℕ, IfOk, IsSome, IsNone, IfSome};
ghost use Rattle.std.specs.List.Sorted.{IsStrictlyIncreasing};

use crate::Memory;
use sp_base::Numbers;
use std::alloc::Global;
use std::marker::Model;

/// Numbers of events, rising strictly. Contracts see their list.
#[derive(Drop)]
pub struct Places {
    numbers: Numbers,
}

impl Model for Places {
    ghost Value = { List ℕ };

    ghost view = { λ s. s.numbers.list };
}

impl Places {
    /// None exactly where the list doesn't rise strictly.
    pub fn new(alloc: Global, list: &[u32]) -> Result<Option<Places>, Memory>
        ensures value { IfOk result (λ places. IfSome places (λ p. p ≡ list.now)) }
        ensures some { IfOk result (λ places. IsSome places → IsStrictlyIncreasing list.now) }
        ensures none { IfOk result (λ places. IsNone places → ¬ IsStrictlyIncreasing list.now) }
    {
        match Numbers::from_list(alloc, list)? {
            Some(numbers) => Ok(Some(Places { numbers })),
            None => Ok(None),
        }
    }

    /// These numbers. Takes no memory.
    pub fn of(numbers: Numbers) -> Places
        ensures { result ≡ numbers.list }
    {
        Places { numbers }
    }

    /// Its numbers, rising strictly.
    pub fn list(&self) -> &[u32]
        ensures list { result.now ≡ self.now }
        ensures rising { IsStrictlyIncreasing result.now }
    {
        self.numbers.list()
    }
}
