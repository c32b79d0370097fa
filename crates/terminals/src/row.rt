//! What a record has of one channel.
use containers::{Bytes, List};
use task_numbers::TaskNo;

/// A channel, as a record of all channels has it.
#[derive(Drop)]
pub struct ChannelRow {
    /// The task that it is coupled to, or niltask.
    pub task: TaskNo,
    /// Its last task, or niltask.
    pub last: TaskNo,
    /// The lines that wait, the oldest first.
    pub queue: List<Bytes>,
}
