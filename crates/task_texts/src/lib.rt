//! Texts of one task: they are entered line by line, kept under a name and read again; and what is told of the task's spaces.
#![tactic(auto)]

pub mod below;
mod close;
mod doing;
mod entering;
mod look;
mod refuse;

pub use close::close_text;
pub use doing::{is_entering, is_idle};
pub use entering::{add_line, drop_text, enter, has_room};
pub use live_task::{Compiled, Doing, Task, Went};
pub use look::{names, source_under, spaces, state};
pub use named_texts::Source;
pub use refuse::entering_refusal;
