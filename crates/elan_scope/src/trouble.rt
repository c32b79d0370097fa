//! Why a phrase has no meaning.

ghost use Rattle.std.specs.Prelude.{◌≡◌};
ghost use Rattle.elan_scope.specs.declared.trouble.Trouble.TheVariants as troubles;

use elan_types::Why;
use eu_base::NoMemory;

/// Why a phrase has no meaning.
#[derive(Clone, Copy)]
pub enum Trouble {
    NoMemory,
    /// The place of the first phrase in it that breaks a rule though all its parts have meaning, and the rule.
    Breaks(u32, Why),
    /// No phrase in it breaks a rule, but its meaning hangs on a refinement of which nothing is known.
    Hangs,
}

impl From<NoMemory> for Trouble {
    ghost from_gives = { λ _ e. e ≡ troubles.NoMemory };

    fn from(_refusal: NoMemory) -> Trouble {
        Trouble::NoMemory
    }
}
