//! The numbers of tasks and of data spaces, and limits that several parts of a system of tasks share.
#![tactic(auto)]

mod limits;
mod number;

pub use limits::{LONGEST_LINE, TASKS};
pub use number::{SpaceNo, TaskNo};
