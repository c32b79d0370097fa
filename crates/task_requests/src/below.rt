//! Items of crates below that the line in crates.txt need not list: this crate and those above read them here.
pub mod of_live_system {
    pub use live_system::System;
}
