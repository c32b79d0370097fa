//! What a text means, phrase after phrase: its names and types, and the first phrase that breaks a rule.
#![tactic(auto)]

pub mod below;
mod error;
mod laws;
pub mod level;
mod packets;
mod routine;
pub mod shown;
mod start;
mod text;
mod text_core;
pub mod text_scope;

pub use error::CheckError;
pub use laws::{
    each_text_has_one_answer, meant_is_not_refused, one_core, one_refusal,
    what_a_text_means_is_well_typed,
};
pub use packets::{interface_of, no_packets, packets_after};
pub use start::started;
pub use text::check;
