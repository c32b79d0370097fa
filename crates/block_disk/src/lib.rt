//! Runs of blocks: whole blocks of a disk that stand one after another are read and written, each once, in order.
#![tactic(auto)]

mod read;
mod write;

pub use read::read_run;
pub use write::write_run;
