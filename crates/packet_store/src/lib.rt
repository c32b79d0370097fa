//! Packets by their numbers, and what texts mean behind them.
#![tactic(auto)]

pub mod below;
mod compile;
mod error;
mod law;
mod library;
mod unit;

pub use error::{CompileError, InstallError};
pub use law::{
    a_reading_exists, bodies_keep_their_numbers, one_meaning, one_reading, one_unit,
    packets_stand_as_compiled, text_has_one_code, units_are_sound,
};
pub use library::{Library, Live};
pub use unit::{Loaded, Unit};
pub use units::{Compiled, PACKETS, Refusal, Source, refusal_text};
