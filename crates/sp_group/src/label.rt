ghost use Rattle.std.specs.Prelude.{◌≡◌, ◌≢◌, ◌↔◌, ℕ, ◌==◌, false, not, List, [], filter, IsTrue, IfOk, IfSome, IsSome, IsNone, OnOk, OnErr};
ghost use Rattle.sp_base.specs.Numbers.{is_among, with_number};
ghost use Rattle.sp_group.specs.Rising.{IsLabel};

use crate::Memory;
use sp_base::Numbers;
use std::alloc::Global;
use std::marker::Model;

/// The guess of a version: the runs of its parent, rising, whose groups it takes to complete. Contracts see
/// the list of their numbers.
#[derive(Drop)]
pub struct Label {
    runs: Numbers,
}

impl Model for Label {
    ghost Value = { List ℕ };

    ghost view = { λ s. s.runs.list };

    ghost invariant = { λ s. IsLabel s.runs.list };
}

impl Label {
    /// None exactly where the list doesn't rise strictly or holds 0.
    #[tactic(auto, using(crate::proofs::Rising::none_zero, crate::proofs::Rising::no_zero))]
    pub fn new(alloc: Global, runs: &[u32]) -> Result<Option<Label>, Memory>
        ensures value { IfOk result (λ label. IfSome label (λ l. l ≡ runs.now)) }
        ensures some { IfOk result (λ label. IsSome label → IsLabel runs.now) }
        ensures none { IfOk result (λ label. IsNone label → ¬ IsLabel runs.now) }
    {
        let Some(runs) = Numbers::from_list(alloc, runs)? else {
            return Ok(None);
        };
        if runs.has(0) {
            return Ok(None);
        }
        Ok(Some(Label { runs }))
    }

    /// The numbers of its runs, rising strictly, none of them 0.
    pub fn runs(&self) -> &[u32]
        ensures list { result.now ≡ self.now }
        ensures label { IsLabel result.now }
    {
        self.runs.list()
    }

    /// No run. Takes no memory.
    pub fn empty(alloc: Global) -> Label
        ensures { result ≡ [] }
    {
        Label {
            runs: Numbers::new(alloc),
        }
    }

    /// Whether this run is among them.
    pub fn has(&self, run: u32) -> bool
        ensures { result ≡ is_among self.now run }
    {
        self.runs.has(run)
    }

    /// Whether the other has the same runs.
    pub fn same(&self, other: &Label) -> bool
        ensures { IsTrue result ↔ self.now ≡ other.now }
    {
        self.runs.list() == other.runs.list()
    }

    /// The same runs once more.
    pub fn copy(&self, alloc: Global) -> Result<Label, Memory>
        ensures { IfOk result (λ copy. copy ≡ self.now) }
    {
        Ok(Label {
            runs: self.runs.copy(alloc)?,
        })
    }

    /// Takes a run in that isn't among them. After want of memory the runs are as before.
    pub fn insert(&mut self, run: u32) -> Result<(), Memory>
        requires given { run ≢ 0 }
        requires new { is_among self.old run ≡ false }
        ensures with { OnOk result (self.new ≡ with_number self.old run) }
        ensures err { OnErr result (self.new ≡ self.old) }
    {
        self.runs.insert(run)?;
        Ok(())
    }

    /// Takes a run out, if it is among them. Takes no memory.
    pub fn remove(&mut self, run: u32)
        ensures { self.new ≡ filter (λ r. not (r == run)) self.old }
    {
        self.runs.remove(run);
    }

    /// Takes all runs out. Takes no memory.
    pub fn clear(&mut self)
        ensures { self.new ≡ [] }
    {
        self.runs.clear();
    }
}
