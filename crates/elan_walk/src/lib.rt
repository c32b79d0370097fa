//! One walk over trees, for whoever looks at their nodes; how operators are written; what the types of names are defined to be.
#![tactic(auto, using(crate::proofs::Went::went_append))]

mod copy;
pub mod definition;
mod node;
mod operators;
mod walk;
mod whole;

pub use node::{Held, Node, Visitor};
pub use operators::operator_text;
pub use walk::{visit_unit, visit_units};
pub use whole::{formals, refinements, result_type, visit_tree};
