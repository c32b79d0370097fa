//! Why a text has no tree.

use containers::NoMemory;

/// Why a text has no tree.
#[derive(Clone, Copy, PartialEq, Eq, Debug)]
pub enum ParseError {
    NoMemory,
    /// The tokens have no tree. With the place of the first token with which they cannot go on to one; where each can, the place
    /// behind the last token's last byte, and 1 where there is no token.
    NotElan(u32),
}

impl From<NoMemory> for ParseError {
    ghost use Rattle.std.specs.Prelude.{◌≡◌};
    ghost use Rattle.elan_parser.specs.declared.error.ParseError.TheVariants as error;

    ghost from_gives = { λ _ e. e ≡ error.NoMemory };

    fn from(_refusal: NoMemory) -> ParseError {
        ParseError::NoMemory
    }
}
