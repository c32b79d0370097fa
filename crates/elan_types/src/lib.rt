//! Types of ELAN, and what a text means: its core.
#![tactic(auto)]

pub mod below;
mod core_phrase;
mod elan_type;
mod laws;
mod why;

pub use core_phrase::{
    Access, Action, Actual, Arm, Body, Content, Core, Exit, Formal, Items, Part, PlacePhrase,
    Scope, ValueArm, ValuePhrase,
};
pub use elan_type::{ElanType, FieldType, Parameter, formals};
pub use eu_base::{Change, Operation, RequestName, Way};
pub use laws::{flat_values_are_one_to_one, parts_stand_in_order};
pub use why::Why;
