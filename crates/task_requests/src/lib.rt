//! How the requests of tasks are served.
#![tactic(auto)]

mod begins;
pub mod below;
mod channel;
mod ends;
mod messages;
mod requests;

pub use channel::input;
pub use live_system::{Finished, System, Went};
pub use requests::serve;
