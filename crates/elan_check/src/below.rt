//! Items of crates below that the line in crates.txt need not list: this crate and those above read them here.
pub mod of_cell_kinds {
    pub use cell_kinds::Packet;
}

pub mod of_elan_rules {
    pub use elan_judge::below::of_elan_rules::{body, whole};
}

pub mod of_value_rules {
    pub use elan_judge::below::of_value_rules::name;
}
