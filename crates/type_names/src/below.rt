//! Items of crates below that the line in crates.txt need not list: this crate and those above read them here.
pub mod of_cell_kinds {
    pub use elan_types::below::of_cell_kinds::CellKinds;
}

pub mod of_elan_walk {
    pub use elan_walk::operator_text;
}
