//! Items of crates below that the line in crates.txt need not list: this crate and those above read them here.
pub mod of_named_texts {
    pub use live_packets::below::of_named_texts::Source;
}
