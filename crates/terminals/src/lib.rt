//! Four channels: which task each is coupled to, the lines that wait there, and its last task.
#![tactic(auto)]

mod apart;
mod channel;
mod row;
mod terminals;

pub use channel::{QUEUED_LINES, QueueFull};
pub use row::ChannelRow;
pub use terminals::{CHANNELS, Terminals};
