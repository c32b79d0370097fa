//! The ready list: which task has the next turn.
#![tactic(auto)]

mod slicer;

pub use slicer::Slicer;
