//! Why a text has no list of tokens.
use containers::NoMemory;

/// Why a text has no list of tokens.
#[derive(Clone, Copy, PartialEq, Eq, Debug)]
pub enum LexError {
    /// Memory was refused.
    NoMemory,
    /// No token and no comment can be read at this place; the text's first byte has place 1.
    NoToken(u32),
    /// There are more than 8,000 tokens.
    TooMany,
}

impl From<NoMemory> for LexError {
    ghost use Rattle.elan_lexer.specs.declared.error.LexError.TheVariants.{NoMemory as no_memory};
    ghost use Rattle.std.specs.Prelude.{◌≡◌};

    ghost from_gives = { λ _ e. e ≡ no_memory };

    fn from(_refusal: NoMemory) -> LexError {
        LexError::NoMemory
    }
}
