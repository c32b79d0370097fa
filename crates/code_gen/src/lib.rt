//! From the core of a text to the instructions of the machine; in the code of a command, bodies that it does not reach do nothing.
#![tactic(auto)]

pub mod below;
mod code;
mod command;
mod cores;
mod entries;
mod marks;
mod names;
mod without;

pub use code::generate;
pub use command::{code_behaves, code_of, one_code};
pub use cores::{one_left, reached};
