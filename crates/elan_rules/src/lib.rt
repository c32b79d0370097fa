//! The rules of meaning: what a unit, a choice, a loop or a body means where its parts mean these, or which rule it breaks.
#![tactic(auto)]

pub mod assignment;
pub mod below;
pub mod body;
pub mod choice;
pub mod list;
mod parts;
pub mod repetition;
pub mod selection;
pub mod store;
pub mod whole;
