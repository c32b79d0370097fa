//! The predefined operators and procedures on texts.
ghost use Rattle.std.specs.Prelude.{◌≡◌};
ghost use Rattle.eu_base.specs.Operations.{text_operand_kinds, text_result_kind};

use crate::value::Kind;

/// An operator or procedure that takes a text or gives one.
#[derive(Clone, Copy, PartialEq, Eq)]
pub enum TextOperation {
    /// `s + t`
    Join,
    /// `n * t`
    Repeat,
    /// `s = t`
    Equal,
    /// `s <> t`
    Unequal,
    /// `s < t`
    Less,
    /// `s <= t`
    LessEqual,
    /// `s > t`
    Greater,
    /// `s >= t`
    GreaterEqual,
    /// `t SUB i`
    ByteAt,
    /// `LENGTH t`, `length (t)`
    Length,
    /// `pos (t, u)`
    PlaceOf,
    /// `subtext (t, a, b)`
    Subtext,
    /// `subtext (t, a)`
    SubtextFrom,
    /// `code (t)`
    CodeOf,
    /// `code (i)`
    TextOfCode,
    /// `text (i)`
    TextOfNumber,
    /// `int (t)`
    NumberIn,
}

impl TextOperation {
    /// The kinds of its operands, from left to right.
    pub fn operand_kinds(self) -> &'static [Kind]
        ensures { result.now ≡ text_operand_kinds self }
    {
        match self {
            TextOperation::Length | TextOperation::CodeOf | TextOperation::NumberIn => {
                &[Kind::Text]
            }
            TextOperation::TextOfCode | TextOperation::TextOfNumber => &[Kind::Int],
            TextOperation::Repeat => &[Kind::Int, Kind::Text],
            TextOperation::ByteAt | TextOperation::SubtextFrom => &[Kind::Text, Kind::Int],
            TextOperation::Subtext => &[Kind::Text, Kind::Int, Kind::Int],
            TextOperation::Join
            | TextOperation::Equal
            | TextOperation::Unequal
            | TextOperation::Less
            | TextOperation::LessEqual
            | TextOperation::Greater
            | TextOperation::GreaterEqual
            | TextOperation::PlaceOf => &[Kind::Text, Kind::Text],
        }
    }

    /// The kind of its result.
    pub fn result_kind(self) -> Kind
        ensures { result ≡ text_result_kind self }
    {
        match self {
            TextOperation::Equal
            | TextOperation::Unequal
            | TextOperation::Less
            | TextOperation::LessEqual
            | TextOperation::Greater
            | TextOperation::GreaterEqual => Kind::Truth,
            TextOperation::Length
            | TextOperation::PlaceOf
            | TextOperation::CodeOf
            | TextOperation::NumberIn => Kind::Int,
            TextOperation::Join
            | TextOperation::Repeat
            | TextOperation::ByteAt
            | TextOperation::Subtext
            | TextOperation::SubtextFrom
            | TextOperation::TextOfCode
            | TextOperation::TextOfNumber => Kind::Text,
        }
    }
}
