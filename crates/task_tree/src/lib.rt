//! The tree of tasks: names, fathers, sons by age, and tasks with their descendants.
#![tactic(auto)]

mod law;
mod rebuild;
mod refusal;
mod row;
mod task;
mod tree;
mod walks;

pub use law::{families_end_in_turn, families_live};
pub use refusal::BeginError;
pub use row::TreeRow;
pub use task::Task;
pub use tree::TaskTree;
pub use walks::{Entry, family, listed};
