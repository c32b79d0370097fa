//! Where a phrase stands, what names denote there, and what is known of bodies.
#![tactic(auto)]

pub mod below;
pub mod delivery;
pub mod env;
pub mod known;
pub mod scope;
pub mod trouble;
