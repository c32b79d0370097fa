//! Items of crates below that the line in crates.txt need not list: this crate and those above read them here.
pub mod of_elan_check {
    pub use packet_store::below::of_elan_check::what_a_text_means_is_well_typed;
}
