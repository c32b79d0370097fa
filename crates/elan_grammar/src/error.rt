//! Why there is no tree.

use containers::NoMemory;

/// Why there is no tree.
#[derive(Clone, Copy, PartialEq, Eq, Debug)]
pub enum ParseError {
    NoMemory,
    /// The tokens have no tree. With the number of tokens from the place on where the parser is stuck.
    NotElan(usize),
}

impl From<NoMemory> for ParseError {
    ghost use Rattle.std.specs.Prelude.{◌≡◌};
    ghost use Rattle.elan_grammar.specs.declared.error.ParseError.TheVariants as error;

    ghost from_gives = { λ _ e. e ≡ error.NoMemory };

    fn from(_refusal: NoMemory) -> ParseError {
        ParseError::NoMemory
    }
}
