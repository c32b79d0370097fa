//! The parser of phrases: types and parameters, forms with parts, expressions, and units.
#![tactic(auto)]

mod access;
mod choices;
mod expressions;
mod inner;
mod knot;
mod labels;
mod loops;
mod parts;
mod phrases;
mod primaries;
mod type_phrases;
mod unit_rules;

pub use expressions::{Grammar, expr_place};
pub use inner::Inner;
pub use knot::{declared, plain, units};
pub use parts::{formals, let_items};
pub use type_phrases::{type_place, types};
