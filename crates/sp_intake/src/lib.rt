//! The reading of the input: rows from a source, piece by piece, up to its end, to the first row that fails, to a
//! limit or to a fault of the source. What bytes give stands in `specs/Reading.antt`, what a reading took and left
//! in `specs/Intake.antt`; what they give where events may come out of order in `specs/Loose.antt`, and what an input
//! gives of these in the order of time in `specs/InOrder.antt`.
#![tactic(auto)]

mod all;
mod events;
mod giving;
mod held;
mod input;
mod latest;
mod law;
mod reader;

pub use events::EventReader;
pub use giving::Input;
pub use input::{InputEvents, LooseEvents, NamedEvents, read_input, read_loose, read_named};
pub use law::{loose_grows, loose_is_good, loose_is_reading};
pub use sp_ports::{Failure, Stop};
