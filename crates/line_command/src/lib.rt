//! The command `line`: one line of ELAN from a source, and what it writes to a sink.
#![tactic(auto)]

pub mod below;
mod law;
mod line;
mod program;
mod screen;
mod status;
mod stream;

pub use law::one_output;
pub use line::run_line;
pub use status::Status;
