ghost use Rattle.std.specs.Prelude.{◌≡◌, ℕ, ◌^◌, ◌<◌, ◌↔◌, [], IsTrue, OnOk, OnErr, if◌then◌else◌};
ghost use Rattle.sp_chance.specs.Shares.{share_of, SetsOnly, key, AreOrdered, AreParts, IsPlace, IsAt};

use sp_base::{Memory, Share};
use std::alloc::Global;
use std::marker::Model;

/// How likely a run of a version is held to complete.
#[derive(Clone, Copy, Drop)]
pub struct Chance {
    pub version: u64,
    pub run: u32,
    pub share: Share,
}

/// Chances of runs. Contracts see them as a list, and `share_of` finds a run's share in it.
#[derive(Drop)]
pub struct Chances {
    // By version and run, rising.
    list: Vec<Chance>,
}

impl Model for Chances {
    ghost use Rattle.std.specs.Prelude.{List};
    ghost use Rattle.sp_chance.specs.Shares.{AreOrdered, AreParts};
    ghost use Rattle.sp_chance.specs.declared.chances.Chance.{Chance};

    ghost Value = { List Chance };

    ghost view = { λ c. c.list.items };

    ghost invariant = { λ c. AreOrdered c.list.items × AreParts c.list.items };
}

impl Chances {
    /// None yet. Takes no memory.
    pub fn new(alloc: Global) -> Chances
        ensures { result ≡ [] }
    {
        Chances {
            list: Vec::new(alloc),
        }
    }

    /// Sets a run's share, in place of one that was set before. After want of memory all is as before.
    pub fn set(&mut self, version: u64, run: u32, share: Share) -> Result<(), Memory>
        ensures ok { OnOk result (SetsOnly self.old self.new version run share) }
        ensures err { OnErr result (self.new ≡ self.old) }
    {
        share.get();
        let at = place(&self.list, version, run);
        if is_at(&self.list, at, version, run) {
            self.list[at].share = share;
            return Ok(());
        }
        self.list.insert(
            at,
            Chance {
                version,
                run,
                share,
            },
        )?;
        Ok(())
    }

    /// The share that was set last for a run, 0 where none was.
    pub fn get(&self, version: u64, run: u32) -> Share
        ensures { result ≡ share_of self.now version run }
    {
        let at = place(&self.list, version, run);
        if is_at(&self.list, at, version, run) {
            self.list[at].share
        } else {
            Share::new(0)
        }
    }

    /// Law: no run has more than the whole.
    pub fn are_parts(&self)
        ensures { AreParts self.now }
    {
        let _ = &self.list;
    }
}

// How many chances stand in front of a run's place, searched by halves.
fn place(list: &[Chance], version: u64, run: u32) -> usize
    requires { AreOrdered list.now }
    ensures { IsPlace list.now version run result }
{
    let mut low = 0;
    let mut high = list.len();
    while low < high {
        let middle = low + (high - low) / 2;
        if is_before(&list[middle], version, run) {
            low = middle + 1;
        } else {
            high = middle;
        }
    }
    low
}

// Whether a chance belongs in front of that of a run.
fn is_before(chance: &Chance, version: u64, run: u32) -> bool
    requires { chance.now.run < 2 ^ 32 }
    ensures { IsTrue result ↔ (key chance.now.version chance.now.run < key version run) }
{
    chance.version < version || (chance.version == version && chance.run < run)
}

// Whether that of the run stands at its place.
fn is_at(list: &[Chance], at: usize, version: u64, run: u32) -> bool
    ensures { IsTrue result ↔ IsAt list.now version run at }
{
    at < list.len() && list[at].version == version && list[at].run == run
}
