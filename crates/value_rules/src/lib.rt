//! The rules of values, names and calls, of items and fields, and of LEAVE.
#![tactic(auto)]

pub mod call;
pub mod leave;
pub mod name;
mod numbered;
pub mod part;
pub mod value;
