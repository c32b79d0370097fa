//! What single instructions do, that enter and leave no body: with cells, values, data spaces, requests and replies.
#![tactic(auto)]

pub mod aggregate;
pub mod ask;
pub mod cells;
pub mod change;
mod counter;
pub mod operate;
mod parts;
pub mod place;
pub mod push;
pub mod reading;
mod receive;
pub mod reply;
mod spaces;
pub mod step;
pub mod stop;
pub mod there;
pub mod values;

pub use receive::receive_all;
pub use spaces::{bind, content, copy, on_spaces};
