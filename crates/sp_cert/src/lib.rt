//! Certificates of a run: for each closed window what it was read without, what its matches used, and
//! these matches. They are made here of a run's matches, and checked without its engines: what they are
//! stands in `specs/Proofs.antt`, when one is right in `specs/Checking.antt`.
#![tactic(auto)]

mod checking;
mod flags;
mod gather;
pub mod law;
mod local;
mod pass;
mod proving;
mod same;
mod spans;

pub use checking::{Verdict, check};
pub use law::{local_and_pass_are_proofs, proofs_tell_the_run};
pub use proving::prove;
