//! Which refinements bodies call, and whether a chain of calls leads from one to another.
#![tactic(auto)]

mod apart;
mod graph;
mod led;
mod marks;
mod ranks;

pub use graph::CallGraph;
