//! Why nothing is revived from what was kept.
ghost use Rattle.std.specs.Prelude.{◌≡◌};
ghost use Rattle.eu_base.specs.declared.revive.ReviveError.TheVariants as cause;

use containers::NoMemory;

/// Why nothing is revived from what was kept.
#[derive(Clone, Copy, PartialEq, Eq)]
pub enum ReviveError {
    /// Memory was refused.
    NoMemory,
    /// What was kept is no state of a system.
    NotSystem,
}

impl From<NoMemory> for ReviveError {
    ghost from_gives = { λ _ e. e ≡ cause.NoMemory };

    fn from(_refusal: NoMemory) -> ReviveError {
        ReviveError::NoMemory
    }
}
