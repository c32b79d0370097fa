//! Source texts under names, in the memory of a task.
#![tactic(auto)]

pub mod below;
mod keep;
mod look;

pub use keep::keep_text;
pub use look::{Source, names, text_under};
