//! Parts of an input that share no event, driven side by side, each by a core of its own, in as many trees as
//! there are predictors. What that comes to stands in `specs/Driving.antt`, which plans the trees may have in
//! `specs/Alike.antt`, how parts are dealt to them in `specs/Dealing.antt`.
#![tactic(auto)]

mod alone;
mod dealing;
mod driving;
mod forest;
mod ground;
mod law;
mod listing;
mod putting;
mod setting;
mod tree;

pub use driving::{drive_parts, find_parts};
pub use forest::{Forest, Trees};
pub use setting::Setting;
