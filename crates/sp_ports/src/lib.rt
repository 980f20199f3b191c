//! The ways in and out of an engine: an intake, which gives events one after another, and an outlet, which takes
//! matches. What they give and take stands in `specs/Giving.antt` and `specs/Taking.antt`, why an intake gives no more
//! in `specs/Stopping.antt`.
#![tactic(auto)]

mod intake;
mod outlet;
mod stop;

pub use intake::{Intake, Next};
pub use outlet::{OutFault, Outlet};
pub use stop::{Failure, Stop};
