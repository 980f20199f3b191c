//! The hub: jobs go from one poster to the seats at which they are done, and pieces come back. Jobs and closing
//! stand behind one lock, whose type keeps that the history of all calls replays to them (`specs/State`); pieces
//! come home through a queue that no lock guards, under a rule (`specs/WayHome`). What a history is stands in
//! `specs/History`, what each call does in `specs/Calls`, what is said of the pieces in `specs/Collecting`.
#![tactic(auto)]

mod entry;
mod exchange;
mod knows;
pub mod law;
pub mod locked;
mod named;
mod naming;
mod opened;
mod poster;
mod seat;
mod settling;
mod shared;
mod taken;
mod tally;
mod way;

pub use entry::HubEntry;
pub use exchange::{History, Hub, Unfinished};
pub use law::takes_follow_posts;
pub use named::Named;
pub use naming::Naming;
pub use opened::Opened;
pub use poster::Poster;
pub use seat::Seat;
use std::alloc::AllocError;
pub use taken::Taken;

/// Want of memory. Any call that allocates may answer it, and says what stands after it.
pub type Memory = AllocError;
