//! The names that a level or a body declares, and the predefined ones: what each denotes, and the look-up among them.
#![tactic(auto)]

pub mod callable;
pub mod denoter;
pub mod directory;
pub mod entry;
pub mod heading;
pub mod headings;
pub mod interface;
mod keeping;
pub mod predefined;
pub mod type_directory;
pub mod type_name;
