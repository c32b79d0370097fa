//! The directory of a task: names of data spaces in order of entry.
#![tactic(auto)]

mod names;

pub use names::Names;
