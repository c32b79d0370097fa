//! What the parser looks at: the next token, and of some tokens what follows them.

use elan_tree::{Key, Sign};

/// How tightly a bold word holds its operands.
#[derive(Clone, Copy)]
pub enum Tier {
    /// DIV, MOD
    Times,
    And,
    Or,
    Other,
}

/// What stands next, as far as the grammar looks.
#[derive(Clone, Copy)]
pub enum Kind {
    Ident,
    Number,
    Text,
    Key(Key),
    Sign(Sign),
    Bold(Tier),
    /// A bold word with VAR, CONST, PROC or OP behind it.
    TypeName(Tier),
    /// A point with an identifier behind it, and no colon behind that.
    Selects,
    /// A point with an identifier and a colon behind it.
    Refines,
    /// A comma with an identifier behind it.
    GoesOn,
    /// There is no token.
    Nothing,
}
