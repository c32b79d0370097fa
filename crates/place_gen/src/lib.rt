//! The instructions of places, values and statements, and how many a phrase has.
#![tactic(auto)]

mod count;
mod draft;
mod emit;
mod put;

pub use count::{count_actions, count_arms, count_loop, count_value, count_value_arms};
pub use draft::Draft;
pub use emit::{emit_actions, emit_content};
pub use put::{
    put_bind, put_else, put_jump, put_leave, put_leave_with, put_load, put_never, put_number,
    put_on_spaces, put_operation, put_place, put_request, put_store, put_test, put_text, put_truth,
    put_value, put_whens, without_first,
};
