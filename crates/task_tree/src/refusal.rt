//! Why no task begins.
ghost use Rattle.std.specs.Prelude.{◌≡◌};
ghost use Rattle.task_tree.specs.declared.refusal.BeginError.TheVariants as cause;

use containers::NoMemory;

/// Why no task begins.
#[derive(Clone, Copy, PartialEq, Eq)]
pub enum BeginError {
    /// Memory was refused.
    NoMemory,
    /// A live task has the name.
    NameTaken,
    /// As many tasks live as can.
    TreeFull,
    /// The last task number was used.
    NumbersSpent,
}

impl From<NoMemory> for BeginError {
    ghost from_gives = { λ _ e. e ≡ cause.NoMemory };

    fn from(_refusal: NoMemory) -> BeginError {
        BeginError::NoMemory
    }
}
