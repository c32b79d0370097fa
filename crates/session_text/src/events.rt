//! What the lines of a session bring about.
ghost use Rattle.std.specs.Prelude.{◌≡◌};
ghost use Rattle.session_text.specs.declared.events.LineError.TheVariants as cause;

use containers::{Bytes, NoMemory};

/// What happens to a system of tasks.
#[derive(Drop)]
pub enum Event {
    /// A line of at most 250 bytes comes in at a channel, 1 to 4.
    Line {
        /// The channel.
        channel: u8,
        /// The line, without its end.
        text: Bytes,
    },
    /// Somebody calls the supervisor at a channel, 1 to 4.
    Supervisor(u8),
    /// So many turns follow, 1 to 10,000.
    Turns(u16),
    /// A fixpoint is taken.
    Fixpoint,
    /// A fixpoint is taken and the session ends.
    Shut,
}

/// Why a line has no events.
#[derive(Clone, Copy, PartialEq, Eq)]
pub enum LineError {
    /// Memory was refused.
    NoMemory,
    /// The line is of no form.
    BadLine,
}

impl From<NoMemory> for LineError {
    ghost from_gives = { λ _ e. e ≡ cause.NoMemory };

    fn from(_refusal: NoMemory) -> LineError {
        LineError::NoMemory
    }
}
