//! The tokens of ELAN and its syntax trees, as plain data.
#![tactic(auto)]

mod phrase;
mod token;
mod tree;
mod written_type;

pub use phrase::{Branch, Case, Counter, Expr, Item, Limit, Operator, Unit};
pub use token::{Key, Sign, Token, Word};
pub use tree::{Body, Export, Level, LevelUnit, OperatorName, Refinement, Tree};
pub use written_type::{Access, Constant, Field, Formal, Label, LetItem, Name, Size, TypePhrase};
