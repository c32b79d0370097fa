//! The procedures and assignments of data spaces, over a memory, and whether what stands in one is there.
#![tactic(auto)]

mod bound;
mod calls;
mod copies;
mod refusals;
mod shapes;
mod there;

pub use bound::assign_bound;
pub use calls::perform;
pub use copies::{assign_copy, forget_held};
pub use refusals::{copy_refusal, life_refusal, room_refusal};
pub use there::{are_there, kind_of, shape_is_there, values_are_there};
