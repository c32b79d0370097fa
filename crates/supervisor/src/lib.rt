//! What the supervisor does at a channel: a line that comes where no task is coupled, and its call.
#![tactic(auto)]

mod answers;
mod begin;
mod commands;
mod continuing;
mod halting;
mod info;

pub use commands::{call, supervise};
pub use task_lines::{over, take};
