//! The classes of bytes.
ghost use Rattle.std.specs.Prelude.{◌≡◌};
ghost use Rattle.elan_lexer.specs.Class as class;

/// A lower-case letter.
pub fn is_lower(b: u8) -> bool
    ensures { result ≡ class.is_lower b }
{
    b.is_ascii_lowercase()
}

/// A capital letter.
pub fn is_upper(b: u8) -> bool
    ensures { result ≡ class.is_upper b }
{
    b.is_ascii_uppercase()
}

/// A digit.
pub fn is_digit(b: u8) -> bool
    ensures { result ≡ class.is_digit b }
{
    b.is_ascii_digit()
}

/// A space, which may stand in an identifier.
pub fn is_space(b: u8) -> bool
    ensures { result ≡ class.is_space b }
{
    b == b' '
}

/// Byte 9, 10, 13 or 32, which may stand between tokens.
pub fn is_blank(b: u8) -> bool
    ensures { result ≡ class.is_blank b }
{
    b == b'\t' || b == b'\n' || b == b'\r' || is_space(b)
}

/// Stands in an identifier.
pub fn is_inner(b: u8) -> bool
    ensures { result ≡ class.is_inner b }
{
    is_lower(b) || is_digit(b) || is_space(b)
}
