//! What expressions and units mean, from left to right, and what is known of the bodies that stand in them.
#![tactic(auto)]

pub mod below;
mod define;
mod deliveries;
pub mod judge;
pub mod label;
pub mod place;
pub mod role;
mod settle;
mod walk;

pub use deliveries::known_of;
