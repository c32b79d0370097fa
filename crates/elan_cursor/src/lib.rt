//! A cursor over the tokens of a text.
#![tactic(auto)]

mod cursor;
pub mod kind;
pub mod made;
pub mod passing;

pub use cursor::Cursor;
