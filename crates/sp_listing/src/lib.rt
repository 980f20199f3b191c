//! Listings: of each window of a run what it was read without, what its matches used, and these
//! matches, as a text, written and read back. What a listing is, and which line of a text is its first
//! bad one, stands in `specs/Listing.antt`.
#![tactic(auto)]

mod fault;
mod head;
pub mod law;
mod limit;
mod line;
mod proof;
mod read;
mod write;

pub use fault::ListFault;
pub use law::{one_listing, written_is_listing};
pub use limit::LISTING_LIMIT;
pub use proof::WindowProof;
pub use read::read_listing;
pub use sp_plan::Memory;
pub use write::{proof_lines, proof_text};
