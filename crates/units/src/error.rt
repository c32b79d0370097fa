//! Why a text is refused.

use elan_types::Why;

/// Why a text is refused. Places count bytes from 1.
#[derive(Clone, Copy, PartialEq, Eq)]
pub enum Refusal {
    /// No token can be read at this place.
    NoToken(u32),
    /// It has too many tokens.
    TooMany,
    /// It is no text of ELAN from this place on.
    NotElan(u32),
    /// The place of the first phrase that breaks a rule, and the rule.
    NoMeaning(u32, Why),
}
