//! Texts in the blocks of a data space, each owned by the cell that it stands in.
#![tactic(auto)]

mod block;
mod entry;
mod hint;
mod law;
mod replace;
mod room;
mod search;
mod text;
mod walk;

pub use block::{BLOCKS, blocks};
pub use entry::{Entry, read_entry};
pub use hint::{hint_after, move_hint, read_hint};
pub use law::zeros_hold_empty_texts;
pub use search::{count_free, first_free, has_free, spread};
pub use text::{clear, get, rooms, set};
pub use walk::{collect, release};
