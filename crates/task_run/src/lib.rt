//! One command, which goes on from where it came to rest.
#![tactic(auto)]

mod task_run;

pub use task_run::TaskRun;
