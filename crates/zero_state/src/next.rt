//! What comes of an instruction.
ghost use Rattle.std.specs.Prelude.{◌≡◌};
ghost use Rattle.zero_state.specs.Stepping.{halt_of};

use code_form::Halt;
use eu_base::Stop;

/// What comes of an instruction.
#[derive(Clone, Copy, PartialEq, Eq)]
pub enum Next {
    /// The machine goes on.
    On,
    /// A mark is due, and none is left.
    Marked,
    /// The command ends.
    Ended,
    /// A number past 16 bits stops it.
    Overflow,
    /// A divisor 0 stops it.
    Division,
    /// An index outside a row stops it.
    Index,
    /// A text of more than 16,000 bytes stops it.
    TextLong,
    /// No code of a byte stops it.
    BadCode,
    /// It stops, since no cells are left.
    CellRoom,
    /// It stops, since too much is pending.
    OperandRoom,
    /// It stops, since a text has no room.
    TextRoom,
    /// It stops, since a data space does not live.
    NoSpace,
    /// It stops, since something of another type stands in a data space.
    WrongShape,
    /// It stops, since no more data spaces may live.
    ManySpaces,
    /// It stops, since the last number of a data space was given.
    SpaceNumbers,
    /// It stops, since no data space can have the name.
    BadName,
    /// It stops, since no data space has the name.
    NoName,
    /// It stops, since a data space has the name already.
    NameThere,
}

impl Next {
    /// Why the machine rests; `None` where it goes on.
    pub fn halt(self) -> Option<Halt>
        ensures { result ≡ halt_of self }
    {
        match self {
            Next::On => None,
            Next::Marked => Some(Halt::Marked),
            Next::Ended => Some(Halt::Ended),
            Next::Overflow => Some(Halt::Stopped(Stop::Overflow)),
            Next::Division => Some(Halt::Stopped(Stop::Division)),
            Next::Index => Some(Halt::Stopped(Stop::Index)),
            Next::TextLong => Some(Halt::Stopped(Stop::TextLong)),
            Next::BadCode => Some(Halt::Stopped(Stop::BadCode)),
            Next::CellRoom => Some(Halt::Stopped(Stop::CellRoom)),
            Next::OperandRoom => Some(Halt::Stopped(Stop::OperandRoom)),
            Next::TextRoom => Some(Halt::Stopped(Stop::TextRoom)),
            Next::NoSpace => Some(Halt::Stopped(Stop::NoSpace)),
            Next::WrongShape => Some(Halt::Stopped(Stop::WrongShape)),
            Next::ManySpaces => Some(Halt::Stopped(Stop::ManySpaces)),
            Next::SpaceNumbers => Some(Halt::Stopped(Stop::SpaceNumbers)),
            Next::BadName => Some(Halt::Stopped(Stop::BadName)),
            Next::NoName => Some(Halt::Stopped(Stop::NoName)),
            Next::NameThere => Some(Halt::Stopped(Stop::NameThere)),
        }
    }
}
