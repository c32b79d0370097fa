//! Items of crates below that the line in crates.txt need not list: this crate and those above read them here.
pub mod of_cell_kinds {
    pub use elan_types::below::of_cell_kinds::Packet;
}

pub mod of_elan_names {
    pub use elan_names::{callable, heading, headings, interface, predefined};
}
