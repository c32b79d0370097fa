//! One task of the tree with its sons.
use containers::{Bytes, List};
use task_numbers::TaskNo;

/// A live task with its sons, as a record of the tree has it.
#[derive(Drop)]
pub struct TreeRow {
    /// Its number.
    pub number: TaskNo,
    /// Its name.
    pub name: Bytes,
    /// The number of its father; niltask for `UR`.
    pub father: TaskNo,
    /// The numbers of its sons, from the oldest.
    pub sons: List<TaskNo>,
}
