//! Two slots of a disk, of which one holds the last fixpoint at every moment.
#![tactic(auto)]

mod blocks;
mod error;
mod fix;
mod head;
mod image;
mod recover;
mod steps;

pub use error::{DiskFault, RecoverError};
pub use fix::Fix;
pub use image::Image;
