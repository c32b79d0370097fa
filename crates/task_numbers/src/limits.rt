//! Limits that several parts of a system of tasks share.

/// How many tasks can live at a time.
pub const TASKS: usize = 16;

/// How many bytes a line for a task has at most.
pub const LONGEST_LINE: usize = 250;
