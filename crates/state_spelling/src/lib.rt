//! Where a command stands, as bytes and back.
#![tactic(auto)]

mod cells;
mod frames;
mod kept;
mod kinds;
mod operands;
mod pending;
mod reading;
mod record;
mod revival;
mod task;
mod values;
mod waiting;
mod walking;
mod whole;
mod writing;

pub use frames::revive;
pub use kept::{Kept, KeptFrame};
pub use pending::OperandBytes;
pub use reading::kept_at;
pub use record::record_bytes;
pub use revival::revive_bytes;
pub use task::{record_over, revive_over};
pub use waiting::{put_waits, small};
pub use walking::Walking;
pub use whole::{read, spell};
