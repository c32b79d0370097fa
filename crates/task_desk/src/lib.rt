//! What all tasks have together, but the live packets: the tree, the ready list, the channels, and what is shown.
#![tactic(auto)]

mod desk;

pub use desk::TaskDesk;
