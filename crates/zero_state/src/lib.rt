//! Where the machine stands: what is pending, the live calls, the cells in use, and what it waits for.
#![tactic(auto)]

mod cells;
mod next;
mod stack;
mod state;

pub use cells::{area_cell, have_room, place_in, run_cell};
pub use next::Next;
pub use stack::{Frame, Link, Stack};
pub use state::State;
