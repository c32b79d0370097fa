//! What grows: byte lists, lists, boxes and values with several owners, which contracts see as plain data, and want of memory.
#![tactic(auto)]

mod boxed;
mod bytes;
mod list;
mod no_memory;
mod shared;

pub use boxed::Boxed;
pub use bytes::Bytes;
pub use list::List;
pub use no_memory::NoMemory;
pub use shared::Shared;
