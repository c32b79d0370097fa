//! A live task: its packets, its memory, and what it does.
#![tactic(auto)]

pub mod below;
mod task;

pub use task::{Doing, Task, Went};
pub use task_job::Compiled;
