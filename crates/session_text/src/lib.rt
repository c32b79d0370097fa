//! The text of a session: lines to events, and pieces of output to lines, as an event shows them at the four channels.
#![tactic(auto)]

mod display;
mod events;
mod lines;
mod pieces;

pub use display::{Display, Piece};
pub use events::{Event, LineError};
pub use lines::{PLAIN_TURNS, event};
pub use pieces::piece;
