//! From a query to its plan. In which order a query is checked stands in `specs/Checks.antt`, when a
//! plan stands for a query in `specs/Stands.antt`.
#![tactic(auto)]

mod arithmetic;
mod boxed;
mod columns;
pub mod comparison;
mod compiling;
mod consume;
mod definitions;
pub mod elements;
pub mod expression;
mod fault;
pub mod law;
mod leaf;
mod lookup;
mod opening;
mod predicate;
pub mod scope;
mod sort;
mod spine;
mod texts;
mod window;

pub use compiling::compile;
pub use fault::CompileFault;
pub use law::{one_truth, one_verdict};
pub use sort::Sort;
