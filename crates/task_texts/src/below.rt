//! Items of crates below that the line in crates.txt need not list: this crate and those above read them here.
pub mod of_data_space {
    pub use named_texts::below::of_data_space::DataSpace;
}

pub mod of_named_texts {
    pub use named_texts::Source;
}

pub mod of_source_texts {
    pub use named_texts::below::of_source_texts::{LONGEST_LINE, MOST_LINES};
}

pub mod of_space_memory {
    pub use named_texts::below::of_space_memory::{MOST_LIVE, SpaceMemory};
}
