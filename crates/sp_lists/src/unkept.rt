ghost use Rattle.std.specs.Prelude.{◌≡◌, None};
ghost use Rattle.std.specs.Arc.{arc_value};

use sp_plan::{Match, Plan};
use sp_ports::{OutFault, Outlet};
use std::alloc::Global;
use std::sync::Arc;

/// An outlet that takes each match, and keeps nothing of it but the count. It never fails, and takes no memory.
#[derive(Drop)]
pub struct Unkept {
    plan: Arc<Plan>,
    // How many matches it took.
    taken: u64,
}

impl Unkept {
    ghost use Rattle.sp_lists.specs.Untold.{untold};

    /// Nothing was taken yet.
    pub fn new(plan: Arc<Plan>) -> Unkept
        ensures plan { result.plan ≡ plan }
        ensures state { untold result ≡ record { held = None; taken = 0; faults = 0 } }
    {
        Unkept { plan, taken: 0 }
    }
}

impl Outlet for Unkept {
    ghost use Rattle.sp_lists.specs.Untold.{untold};

    ghost plan = { λ outlet. arc_value outlet.plan };

    ghost token = { λ outlet. 0 };

    ghost state = { untold };

    fn put(&mut self, _alloc: Global, _found: &Match) -> Result<(), OutFault> {
        self.taken = self.taken.saturating_add(1);
        Ok(())
    }
}
