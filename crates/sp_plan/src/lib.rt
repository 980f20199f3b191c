//! The compiled plan of a query, the events that it is run on, and what its predicates say of them.
//! What a query means stands in `specs/`: values, windows, runs, the engine that goes window by
//! window, and the text of its matches. Every other crate cites these definitions.
#![tactic(auto)]

mod ahead;
mod bound;
mod column;
mod eval;
mod event;
mod fits;
mod found;
mod held;
pub mod law;
mod masks;
mod pairs;
mod places;
mod plan;
mod runs;
mod same;
mod shared;

pub use ahead::{known, may_hold};
pub use bound::Bound;
pub use column::HeldColumn;
pub use eval::{holds, value};
pub use event::{Event, Value, Values};
pub use found::Match;
pub use held::{held_sides_read, hold_columns, hold_run};
pub use law::{
    fitting_events_are_small, held_sides_stand_alone, known_is_right, plans_are_themselves,
    reading_is_state, same_predicates_hold_alike, what_may_not_hold_does_not,
};
pub use masks::{has_bit, put_bit, with_bit};
pub use places::Places;
pub use plan::{
    Column, Compare, Element, Expr, Kind, Length, Name, Opening, Plan, Pred, Schema, Select,
};
pub use runs::{Binds, holding};
pub use shared::SharedEvent;
pub use sp_base::{Listed, Memory, Text};
