//! The source machine: what a system of tasks is, and what an event makes of it.
#![tactic(auto)]

mod law;

pub use law::{events_join, fixpoints_change_nothing};
