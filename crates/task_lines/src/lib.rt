//! How a task takes a line, and what a command that is over leads to.
#![tactic(auto)]

mod answers;
mod ending;
mod entering;
mod forms;
mod idle;
mod lines;
mod queue;
mod texts;

pub use ending::over;
pub use lines::take;
pub use live_system::{Finished, System, What};
