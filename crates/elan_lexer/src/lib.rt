//! Cuts a text of ELAN into tokens.
#![tactic(auto)]

mod class;
mod error;
mod front;
mod lexer;
mod reading;
mod scan;
mod tables;

pub use error::LexError;
pub use lexer::{longest_match, tokens};
