//! Source texts: data spaces that hold the lines of a text.
#![tactic(auto)]

mod law;
mod read;
mod shape;
mod view;
mod write;

pub use law::source_reads_back;
pub use read::read_source;
pub use shape::{LONGEST_LINE, MOST_LINES, SOURCE_KIND, is_source, new_shape};
pub use write::write_source;
