//! A system of tasks, event by event. More evaluations than a slice may have would change nothing.
#![tactic(auto)]

pub mod below;
mod evaluations;
mod events;
mod isolated;
mod lines;
mod slices;
mod turns;
mod waiting;

pub use events::{event, opening};
pub use isolated::{others, two_worlds};
pub use slices::enough;
pub use task_requests::System;
