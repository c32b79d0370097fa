//! Items of crates below that the line in crates.txt need not list: this crate and those above read them here.
pub mod of_named_texts {
    pub use live_tasks::below::of_named_texts::Source;
}

pub mod of_packet_store {
    pub use live_tasks::below::of_packet_store::{
        CompileError, Library, Loaded, PACKETS, Unit, one_reading, refusal_text,
    };
}
