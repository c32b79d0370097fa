//! The machine: it runs code over a memory of cells, enters and leaves bodies, and can be stopped and resumed at each mark.
#![tactic(auto)]

pub mod calls;
mod cells;
mod denoted;
mod frames;
mod instruction;
mod machine;
mod release;
mod shapes;
mod starting;
mod texts;

pub use code_form::Halt;
pub use denoted::variables_denote;
pub use frames::write_variables;
pub use machine::{laws, reply, run};
pub use shapes::{count_cells, free_shapes};
pub use starting::start;
pub use zero_state::{Stack, State};
