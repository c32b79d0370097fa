//! Items of crates below that the line in crates.txt need not list: this crate and those above read them here.
pub mod of_data_space {
    pub use data_space::DataSpace;
}

pub mod of_source_texts {
    pub use source_texts::{LONGEST_LINE, MOST_LINES};
}

pub mod of_space_memory {
    pub use space_memory::{MOST_LIVE, SpaceMemory};
}
