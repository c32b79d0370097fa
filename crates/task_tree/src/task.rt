//! One task of the tree.
use containers::Bytes;
use task_numbers::TaskNo;

/// A live task, as contracts see it.
#[derive(Drop)]
pub struct Task {
    /// Its number.
    pub number: TaskNo,
    /// Its name, which no other live task has.
    pub name: Bytes,
    /// The number of its father; niltask for `UR`.
    pub father: TaskNo,
}
