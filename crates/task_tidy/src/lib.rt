//! The data spaces that nothing denotes are forgotten.
#![tactic(auto)]

pub mod below;
mod forgetting;
mod tidying;
mod used;

pub use task_messages::{
    Compiled, Source, Task, Went, add_line, can_send, can_take, close_text, drop_text, enter,
    entering_refusal, has_room, is_entering, is_idle, names, send_out, source_under, spaces, state,
    take_in,
};
pub use tidying::tidy;
