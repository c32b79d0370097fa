//! The names of types that LET and TYPE declare, what is wrong with types, and what else a level declares.
#![tactic(auto)]

pub mod below;
pub mod bodies;
mod calls;
mod declare;
pub mod fault;
pub mod fields;
pub mod heading;
pub mod judgement;
pub mod resolve;
pub mod scope_types;
pub mod search;
pub mod uses;
pub mod visible;
pub mod within;
pub mod written;
