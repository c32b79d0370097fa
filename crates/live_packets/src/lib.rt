//! The live packets, with the tasks that have them, and what changes of both together.
#![tactic(auto)]

pub mod below;
mod changes;
mod endings;
mod packets;
mod place;

pub use crate::below::of_packet_store::{Loaded, one_reading};
pub use changes::{begin_task, can_begin, can_end, install, remove, said_of, start_unit};
pub use endings::{finish, settle};
pub use live_tasks::{Tasks, Went};
pub use packets::{Packets, told};
pub use place::{last_of, place_of};
pub use task_desk::TaskDesk;
