//! Items of crates below that the line in crates.txt need not list: this crate and those above read them here.
pub mod of_page_pool {
    pub use page_pool::{Backing, PAGE_BYTES, Pool};
}
