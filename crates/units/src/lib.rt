//! What a system of tasks needs of texts that are compiled: units, packets under numbers, refusals; as plain data.
#![tactic(auto)]

pub mod below;
mod error;
mod library;
mod refusal;
mod unit;

pub use error::Refusal;
pub use library::{LAST_NUMBER, PACKETS};
pub use refusal::refusal_text;
pub use unit::{Compiled, Source};
