//! What a task does, and the text of one of its spaces.
use eu_base::Bytes;

/// What a task does, told apart.
#[derive(Clone, Copy, PartialEq, Eq)]
pub enum What {
    /// It does not live.
    Gone,
    /// It takes the next line.
    Idle,
    /// A text is entered line by line.
    Entering,
    /// It runs a command.
    Running,
}

/// The text of a space under a name.
#[derive(Drop)]
pub enum SourceText {
    /// No space has the name.
    NoSpace,
    /// The space is no source text.
    NoText,
    /// The text.
    Text(Bytes),
}
