//! The grammar of ELAN: what a parser sees ahead, what it gives, and the definitions of all productions.
#![tactic(auto)]

mod continuation;
mod error;
mod heading;
mod joint;
mod kind;
mod law;
pub mod tall;

pub use continuation::Continuation;
pub use error::ParseError;
pub use heading::{LoopParts, OperatorParts, ProcParts, SelectParts};
pub use joint::{Joint, Right};
pub use kind::{Kind, Tier};
pub use law::{one_place, one_tree};
