//! What a command waits for.

use eu_base::{Reply, Request, Stop};

/// What a command waits for before it goes on.
#[derive(Drop)]
pub enum Waits {
    /// Nothing.
    Nothing,
    /// The reply to the request at its instruction.
    Asked(Request),
    /// Nothing any more: the reply came, and the instruction goes on with it.
    Given(Reply),
    /// Nothing any more: it stops, since what it needed was refused, or since it says so.
    Refused(Stop),
}
