//! The lines of a session, from any source, one after another; its events, and how it ends.
#![tactic(auto)]

mod ending;
mod reader;
mod shutting;

pub use ending::{Ending, MOST_LINES};
pub use reader::{LONGEST, LineReader, Next, ROOM};
pub use shutting::shuts;
