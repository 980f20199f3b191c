// What holds a core and is fed for it, between an intake and an outlet.
ghost use Rattle.std.specs.Prelude.{◌≡◌, ℕ, false, true, [], ◌∷◌, ◌++◌, OnOk, OnErr};
ghost use Rattle.sp_ports.specs.Giving.{AreGood};
ghost use Rattle.sp_core.specs.Running.{Running};
ghost use Rattle.sp_split.specs.Stages.{FedOn};

use crate::Memory;
use sp_core::Core;
use sp_plan::Event;
use std::alloc::Global;

/// Holds a core, which it is fed for. How it works is a function that a round is given.
pub(crate) trait Driver {
    /// The core.
    ghost core: { Self → Running };

    /// How many instances work for it.
    ghost instances: { Self → ℕ };

    /// How many events it is fed at most between two turns.
    ghost batch: { Self → ℕ };

    /// Its predictors.
    type Team;

    /// The predictor in work, and those that follow it.
    ghost team: { Self → Self.Team };

    /// What may have become of predictors while it worked.
    ghost relieved: { Self.Team → Self.Team → Type 0 };

    /// Where it may be fed, and work.
    ghost ready: { Self → Type 0 };

    /// How it came to where it stands, wherever that is.
    ghost came: { Self → Type 0 };

    /// Where it may be fed, it came so.
    ghost ready_came: { (driver : Self) → ready driver → came driver };

    /// The core.
    fn core(&self) -> &Core
        ensures { result.now ≡ core self.now };

    /// How many events it is fed at most between two turns.
    fn batch(&self) -> u32
        ensures { result ≡ batch self.now };

    /// The core is fed the next event. After want of memory it is as before.
    fn feed(&mut self, alloc: Global, event: Event) -> Result<(), Memory>
        requires ready { ready self.old }
        requires unended { (core self.old).machine.ended ≡ false }
        requires good { AreGood (core self.old).plan
            ((core self.old).machine.events ++ event ∷ []) }
        ensures on { FedOn (core self.old) (core self.new) }
        ensures fed { OnOk result ((core self.new).machine.events
            ≡ (core self.old).machine.events ++ event ∷ []) }
        ensures err { OnErr result ((core self.new).machine.events
            ≡ (core self.old).machine.events) }
        ensures unended { (core self.new).machine.ended ≡ false }
        ensures ready { ready self.new }
        ensures same { (instances self.new ≡ instances self.old)
            × (batch self.new ≡ batch self.old) × (team self.new ≡ team self.old) };

    /// Input has ended, and the core is told.
    fn end(&mut self)
        requires ready { ready self.old }
        requires unended { (core self.old).machine.ended ≡ false }
        ensures on { FedOn (core self.old) (core self.new) }
        ensures events { (core self.new).machine.events ≡ (core self.old).machine.events }
        ensures ended { (core self.new).machine.ended ≡ true }
        ensures ready { ready self.new }
        ensures same { (instances self.new ≡ instances self.old)
            × (batch self.new ≡ batch self.old) × (team self.new ≡ team self.old) };
}
