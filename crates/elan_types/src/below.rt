//! Items of crates below that the line in crates.txt need not list: this crate and those above read them here.
pub mod of_cell_kinds {
    pub use cell_kinds::{CellKinds, Packet};
}
