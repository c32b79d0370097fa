//! What may stand behind a front of a text, as far as the parser looks ahead.

/// What stands behind a front. A point, a comma and a bold word are read by what follows them, and any tokens at all look to them
/// like one of these five.
#[derive(Clone, Copy)]
pub enum Continuation {
    /// Nothing stands there.
    End,
    /// An identifier: behind a point it selects, and behind a comma it goes on.
    Name,
    /// An identifier and a colon: behind a point a refinement begins.
    Refinement,
    /// A colon: it follows the identifier of a refinement.
    Colon,
    /// VAR: a bold word before it is a type.
    Declaration,
}
