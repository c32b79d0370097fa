//! How a task went on.
use eu_base::{Request, Stop};
use live_packets::Loaded;

/// A command that is over, and how it stopped, if it did.
#[derive(Drop)]
pub struct Finished {
    pub unit: Loaded,
    pub stop: Option<Stop>,
}

/// How a task went on.
#[derive(Drop)]
pub enum Went {
    /// It runs no command.
    NotRunning,
    /// A mark is due and none is left.
    Marked,
    /// It asks this, and waits for a reply.
    Asks(Request),
    /// Its command has ended or stopped.
    Over(Finished),
}
