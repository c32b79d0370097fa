//! How a session ends.

/// How many lines a session has at most.
pub const MOST_LINES: u32 = 4_294_967_295;

/// How a session ends.
#[derive(Clone, Copy, PartialEq, Eq)]
pub enum Ending {
    /// A line shut it.
    ByShut,
    /// The input ended.
    AtEnd,
    /// The line of this number, from 1, is of no form.
    BadLine(u32),
    /// A line follows the most that a session has.
    Full,
}
