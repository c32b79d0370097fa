//! What lies outside the program, as traits with a meaning, and such objects in memory.
#![tactic(auto)]

mod calls;
mod disk;
mod fuse_disk;
mod log;
mod mem_disk;
mod pieces;
mod sink;
mod source;
mod trail;
mod write_log;

pub use disk::{BLOCKS, Disk};
pub use fuse_disk::FuseDisk;
pub use mem_disk::MemDisk;
pub use pieces::put_all;
pub use sink::{MemSink, Sink};
pub use source::{MemSource, Source};

/// An outside object failed, and its count of faults rose.
#[derive(Clone, Copy, PartialEq, Eq, Debug)]
pub struct Failed;
