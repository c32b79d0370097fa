//! A system of tasks over one pool, step by step.
#![tactic(auto)]

pub mod below;
mod commands;
mod looks;
mod messages;
mod runs;
mod steps;
mod system;
mod texts;
mod what;

pub use message_wait::Offer;
pub use runs::{Finished, Went};
pub use system::System;
pub use what::{SourceText, What};
