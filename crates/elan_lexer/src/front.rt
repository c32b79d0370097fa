//! What stands at the front of a text.
use elan_tree::{Key, Word};

/// What stands at the front of a text: the longest piece that begins there.
#[derive(Drop)]
pub enum Front {
    /// This many bytes of a blank or a comment.
    Skips(usize),
    /// A token of this many bytes.
    Holds(Word, usize),
    /// END and a keyword, with this many bytes together.
    Ends(Key, usize),
    /// Nothing that can be read.
    Stuck,
}
