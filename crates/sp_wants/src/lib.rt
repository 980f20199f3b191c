//! How many events open runs want before an event and after it, as stretches of equal pairs: neighbouring runs mostly
//! want the same, and an event mostly changes none of it. What stretches stand for is in `specs/Stretches.antt`.
#![tactic(auto)]

mod stretch;
mod wants;

pub use stretch::Stretch;
pub use wants::Wants;
