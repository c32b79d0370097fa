//! Items of crates below that the line in crates.txt need not list: this crate and those above read them here.
pub mod of_cell_kinds {
    pub use elan_check::below::of_cell_kinds::Packet;
}

pub mod of_code_form {
    pub use code_gen::below::of_code_form::Code;
}

pub mod of_elan_check {
    pub use elan_check::what_a_text_means_is_well_typed;
}

pub mod of_elan_names {
    pub use units::below::of_elan_names::interface;
}
