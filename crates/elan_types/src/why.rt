//! Why a text has no meaning.

/// The rule that a phrase breaks.
#[derive(Clone, Copy, PartialEq, Eq, Debug)]
pub enum Why {
    /// A name denotes nothing.
    Unknown,
    /// A name stands twice in its scope.
    Doubled,
    /// A value is missing, superfluous or of another type.
    WrongType,
    /// A variable is needed.
    NoVariable,
    /// A phrase stands where it cannot: a LEAVE of another name, a refinement that calls itself, or a type that contains itself.
    WrongPlace,
    /// The size of a row is outside 1 to 16,384, or a type has more than 16,384 cells, or its shape more than 800 nodes.
    TooLarge,
}
