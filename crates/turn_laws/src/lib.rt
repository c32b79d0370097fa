//! Laws of turns, of every system: what marks are to a command, what a turn means for others, who waits, and what every event leaves valid.
#![tactic(auto)]

mod evaluation;
mod isolation;
mod validity;
mod waiting;

pub use evaluation::steady;
pub use isolation::{others_stay, turns_alike, turns_go_on};
pub use validity::{events_leave_valid, opening_is_valid, plain_parts_stay, tasks_stand};
pub use waiting::waits;
