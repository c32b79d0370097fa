//! What the storing of a text came to.

/// Whether a text was stored.
#[derive(Clone, Copy, PartialEq, Eq, Debug)]
pub enum Set {
    /// It stands in its cell.
    Done,
    /// All texts together would take more blocks than there are. Nothing changed.
    HeapFull,
}
