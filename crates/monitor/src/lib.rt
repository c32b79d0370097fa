//! What a line is at a task and at the supervisor.
#![tactic(auto)]

mod commands;
mod laws;
mod lines;
mod words;

pub use commands::{Command, Form};
pub use laws::one_form;
pub use lines::{form, supervisor};
