//! All tasks over one pool.
#![tactic(auto)]

pub mod below;
mod looks;
mod messages;
mod tasks;
mod texts;

pub use task_tidy::{Source, Went};
pub use tasks::Tasks;
