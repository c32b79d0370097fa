//! Why a text is refused.

ghost use Rattle.std.specs.Prelude.{◌≡◌};
ghost use Rattle.elan_check.specs.declared.error.CheckError.TheVariants as errors;

use elan_types::Why;
use eu_base::NoMemory;

/// Why a text has no core.
#[derive(Clone, Copy, PartialEq, Eq, Debug)]
pub enum CheckError {
    NoMemory,
    /// The place of the first phrase in text order that breaks a rule though all its parts have
    /// meaning, and the rule. The text's first byte has place 1.
    NoMeaning(u32, Why),
}

impl From<NoMemory> for CheckError {
    ghost from_gives = { λ _ e. e ≡ errors.NoMemory };

    fn from(_refusal: NoMemory) -> CheckError {
        CheckError::NoMemory
    }
}
