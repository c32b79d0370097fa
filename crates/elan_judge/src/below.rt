//! Items of crates below that the line in crates.txt need not list: this crate and those above read them here.
pub mod of_elan_names {
    pub use elan_rules::below::of_elan_names::heading;
}

pub mod of_elan_rules {
    pub use elan_rules::{body, whole};
}

pub mod of_elan_walk {
    pub use type_names::below::of_elan_walk::operator_text;
}

pub mod of_value_rules {
    pub use elan_rules::below::of_value_rules::{call, leave, name, part, value};
}
