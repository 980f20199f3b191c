ghost use Rattle.std.specs.Prelude.{◌≡◌, ◌≢◌, ℕ, [], ◌∷◌, Err, OnOk, OnErr};
ghost use Rattle.sp_io.specs.Outside.{Rose, GrewWithin};
ghost use Rattle.sp_plan.specs.declared.plan.Plan.{Plan};
ghost use Rattle.sp_plan.specs.Lines.{line};
ghost use Rattle.sp_ports.specs.Taking.{OutletState, Took};

use sp_plan::Match;
use std::alloc::Global;
use std::marker::Send;

/// Why an outlet did not take a match.
#[derive(Clone, Copy, Drop, PartialEq, Eq)]
pub enum OutFault {
    /// It failed, and its count of faults rose in that call.
    Failed,
    /// Out of memory; no count rose.
    Memory,
}

/// Takes matches, one after another.
pub trait Outlet: Send + Drop {
    /// The plan by which it writes them.
    ghost plan: { Self → Plan };

    /// What no call changes, beside the plan: which outlet it is.
    ghost token: { Self → ℕ };

    /// The text that it holds, where that is told; how many matches it took; and how often it failed.
    ghost state: { Self → OutletState };

    /// Appends the line of a match, and counts it. After a fault a beginning of the line was appended, and the
    /// match is not counted.
    fn put(&mut self, alloc: Global, found: &Match) -> Result<(), OutFault>
        ensures plan { plan self.new ≡ plan self.old }
        ensures token { token self.new ≡ token self.old }
        ensures ok { OnOk result
            (Took (plan self.old) (found.now ∷ []) (state self.old) (state self.new)) }
        ensures front { OnErr result
            (GrewWithin (state self.old).held (line (plan self.old) found.now)
            (state self.new).held) }
        ensures uncounted { OnErr result ((state self.new).taken ≡ (state self.old).taken) }
        ensures failed { result ≡ Err OutFault.Failed
            → Rose (state self.old).faults (state self.new).faults }
        ensures not_failed { result ≢ Err OutFault.Failed
            → (state self.new).faults ≡ (state self.old).faults };
}
