//! What is known of phrases that have meaning, and what their types choose.
#![tactic(auto)]

pub mod arity;
pub mod arms;
pub mod below;
pub mod meant;
pub mod operands;
pub mod part;
pub mod row;
pub mod together;
