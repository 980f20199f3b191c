//! A core whose leases are known again. Each job that goes out is entered in a register that only grows, and bears a
//! receipt for its entry, which takes no room that counts; the piece of the job bears it home. So a piece is known to be of
//! the job that was lent, and nothing of it is compared. What a register is stands in `specs/Registered`, what is true of
//! the jobs in it in `specs/Truth`. Beside the receipt goes a reading that was kept, where one may be of what the job lends:
//! it is taken up in place of reading, by whoever reads the job. The piece of a job lies in one box from the lease until it
//! is home, and what goes from hand to hand is small.
#![tactic(auto)]

mod boxed;
mod front;
mod law;
mod lender;
mod loan;
mod memo;
mod reading;
mod register;

pub use lender::Lender;
pub use loan::Loan;
pub use reading::Reading;
pub use register::{Lending, Register};
use std::alloc::AllocError;

/// Want of memory. Any call that allocates may answer it, and says what stands after it.
pub type Memory = AllocError;
