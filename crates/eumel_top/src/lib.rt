//! The top call: the words of the command line and the outside objects in, a status out; and a session, line by line.
#![tactic(auto)]

mod command;
mod desk;
mod error;
mod fault;
mod play;
mod put;
mod session;
mod top;

pub use desk::Desk;
pub use error::PlayError;
pub use fault::LineFault;
pub use line_command::{Status, one_output};
pub use session::run_play;
pub use session_lines::{Ending, MOST_LINES};
pub use top::eumel;
