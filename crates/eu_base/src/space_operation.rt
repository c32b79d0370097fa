//! The predefined procedures on data spaces.
ghost use Rattle.std.specs.Prelude.{◌≡◌};
ghost use Rattle.eu_base.specs.SpaceOperations.{space_operand_kinds, space_result_kind, is_name};

use crate::value::Kind;

/// The most bytes of a name of a task or a data space.
pub const LONGEST_NAME: usize = 60;

/// A procedure on data spaces and their names.
#[derive(Clone, Copy, PartialEq, Eq)]
pub enum SpaceOperation {
    /// `type (ds)`
    KindOf,
    /// `new (t)`
    New,
    /// `old (t)`
    Old,
    /// `exists (t)`
    IsNamed,
    /// `type (ds, n)`
    SetKind,
    /// `forget (ds)`
    Forget,
    /// `forget (t)`
    ForgetNamed,
    /// `rename (t, u)`
    Rename,
    /// `copy (t, u)`
    CopyNamed,
}

impl SpaceOperation {
    /// The kinds of its operands, from left to right.
    pub fn operand_kinds(self) -> &'static [Kind]
        ensures { result.now ≡ space_operand_kinds self }
    {
        match self {
            SpaceOperation::KindOf | SpaceOperation::Forget => &[Kind::Space],
            SpaceOperation::New
            | SpaceOperation::Old
            | SpaceOperation::IsNamed
            | SpaceOperation::ForgetNamed => &[Kind::Text],
            SpaceOperation::SetKind => &[Kind::Space, Kind::Int],
            SpaceOperation::Rename | SpaceOperation::CopyNamed => &[Kind::Text, Kind::Text],
        }
    }

    /// The kind of its result, if it gives one.
    pub fn result_kind(self) -> Option<Kind>
        ensures { result ≡ space_result_kind self }
    {
        match self {
            SpaceOperation::KindOf => Some(Kind::Int),
            SpaceOperation::New | SpaceOperation::Old => Some(Kind::Space),
            SpaceOperation::IsNamed => Some(Kind::Truth),
            SpaceOperation::SetKind
            | SpaceOperation::Forget
            | SpaceOperation::ForgetNamed
            | SpaceOperation::Rename
            | SpaceOperation::CopyNamed => None,
        }
    }
}

/// Whether a task or a data space can have this name: it has 1 to 60 bytes.
pub fn is_name(name: &[u8]) -> bool
    ensures { result ≡ is_name name.now }
{
    !name.is_empty() && name.len() <= LONGEST_NAME
}
