//! Why a run comes to rest.

use eu_base::{Request, Stop};

/// Why a run comes to rest.
#[derive(Drop)]
pub enum Halt {
    /// A mark is due, and none is left.
    Marked,
    /// It waits for the answer to a request.
    Asks(Request),
    /// The command has come to its end.
    Ended,
    /// The command stopped before its end.
    Stopped(Stop),
}
