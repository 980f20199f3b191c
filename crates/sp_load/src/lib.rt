//! What a command names is loaded: files up to a limit; a query's text, from a word or a file, and its plan, or why
//! there is none. What refuses a load stands in `specs/Loads.antt`, what refuses a text in `specs/Queries.antt`,
//! and that of a second query in `specs/Seconds.antt`.
#![tactic(auto)]

pub mod law;
mod load;
mod place;
mod query;
mod refusal;
mod second;

pub use law::{one_reading, one_second, one_text};
pub use load::load_file;
pub use place::{Place, QueryText, plan_at, plan_of_text, text_at};
pub use refusal::Refusal;
pub use second::second_plan;
