// Where a splitter and its instances meet.

use sp_hub::{Hub, Naming};
use sp_instance::Gate;
use sp_lend::{Lending, Loan, Reading};
use std::alloc::Global;
use std::sync::Wait;

/// A hub, with what doing jobs there takes.
#[derive(Drop)]
pub(crate) struct Office<'a, B: Lending, L: Naming, G: Gate, R: Wait> {
    pub(crate) rt: &'a R,
    pub(crate) alloc: Global,
    pub(crate) hub: &'a Hub<Loan<B>, Reading<B>, L>,
    /// What stands round each job.
    pub(crate) gate: &'a G,
}
