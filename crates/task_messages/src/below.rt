//! Items of crates below that the line in crates.txt need not list: this crate and those above read them here.
pub mod of_data_space {
    pub use task_texts::below::of_data_space::DataSpace;
}

pub mod of_named_texts {
    pub use task_texts::below::of_named_texts::Source;
}

pub mod of_space_memory {
    pub use task_texts::below::of_space_memory::SpaceMemory;
}
