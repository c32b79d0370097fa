//! A command that runs over the memory of its task, and how the parts of one are let go.
#![tactic(auto)]

pub mod below;
mod job;
mod lent;

pub use job::Job;
pub use packet_store::Compiled;
use task_run::TaskRun;

/// Lets what is compiled go.
pub fn let_unit_go(_unit: Compiled) {}

/// Lets a run go.
pub fn let_run_go(_run: TaskRun) {}
