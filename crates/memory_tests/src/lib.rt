//! Tests of what tasks keep in pages, in memory and behind it: pages, data spaces, texts in a space, the memory of a task, and tasks
//! with two spaces each over one pool.
#![tactic(auto)]

#[cfg(test)]
mod blocks;
#[cfg(test)]
mod cells;
#[cfg(test)]
mod data_spaces;
#[cfg(test)]
mod failing;
#[cfg(test)]
mod memories;
#[cfg(test)]
mod numbers;
mod opened;
#[cfg(test)]
mod out;
#[cfg(test)]
mod pages;
#[cfg(test)]
mod sources;
#[cfg(test)]
mod space_steps;
mod space_task;
mod spaces;
mod system;
#[cfg(test)]
mod task;
#[cfg(test)]
mod tests;
#[cfg(test)]
mod texts;

pub use opened::open_page;
pub use space_task::Task;
pub use system::System;
