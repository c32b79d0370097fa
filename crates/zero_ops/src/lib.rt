//! What the predefined operators and procedures give. A text is a list of at most 16,000 bytes, and its first byte has place 1.
#![tactic(auto)]

mod convert;
mod error;
mod input;
mod join;
mod limit;
mod message;
mod numbers;
mod operate;
mod order;
mod part;
mod search;
mod texts;
mod trim;

pub use error::{Fault, OpError};
pub use input::{answer_of, read_as};
pub use join::append;
pub use message::message_values;
pub use numbers::{change_number, on_numbers};
pub use operate::apply;
