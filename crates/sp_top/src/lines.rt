// The output as an outlet of matches.
ghost use Rattle.std.specs.Prelude.{◌≡◌};
ghost use Rattle.std.specs.Arc.{arc_value};

use sp_emit::match_line;
use sp_io::Sink;
use sp_plan::{Match, Plan};
use sp_ports::{OutFault, Outlet};
use std::alloc::Global;
use std::sync::Arc;

/// Writes the line of each match to a sink, by one call.
#[derive(Drop)]
pub(crate) struct Lines<'a, K: Sink> {
    pub(crate) plan: Arc<Plan>,
    pub(crate) out: &'a mut K,
    /// How many matches it took.
    pub(crate) taken: u64,
}

impl<'a, K: Sink> Lines<'a, K> {
    /// The sink, as it stands now.
    pub(crate) fn into_sink(self) -> &'a mut K
        ensures same { result.ghost_name ≡ self.entry.out.ghost_name }
        ensures now { result.now ≡ self.entry.out.now }
    {
        let Lines { out, .. } = self;
        out
    }
}

impl<'a, K: Sink> Outlet for Lines<'a, K> {
    ghost plan = { λ l. arc_value l.plan };

    ghost token = { λ l. l.out.ghost_name };

    ghost state = { λ l. record {
      held = (K.state l.out.now).held;
      taken = l.taken;
      faults = (K.state l.out.now).faults;
    } };

    fn put(&mut self, alloc: Global, found: &Match) -> Result<(), OutFault> {
        let Ok(line) = match_line(alloc, &self.plan, found) else {
            return Err(OutFault::Memory);
        };
        match self.out.write_all(line.as_bytes()) {
            Ok(()) => {
                self.taken = self.taken.saturating_add(1);
                Ok(())
            }
            Err(_) => Err(OutFault::Failed),
        }
    }
}
