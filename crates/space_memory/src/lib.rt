//! The memory of a task, over pages, with its live data spaces by number.
#![tactic(auto)]

mod cells;
mod lent;
mod live;
mod names;
mod numbered;
mod space_memory;
mod spaces;
mod variables;
mod within;

pub use cells::{number, rooms, set_number, set_text, text};
pub use lent::Lent;
pub use live::{MOST_LIVE, Spaces};
pub use space_memory::SpaceMemory;
