//! Data spaces that go from task to task with messages.
#![tactic(auto)]

pub mod below;
mod messages;

pub use messages::{can_send, can_take, send_out, take_in};
pub use task_texts::{
    Compiled, Doing, Source, Task, Went, add_line, close_text, drop_text, enter, entering_refusal,
    has_room, is_entering, is_idle, names, source_under, spaces, state,
};
