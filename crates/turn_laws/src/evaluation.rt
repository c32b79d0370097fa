//! A command goes on from where it stood.
ghost use Rattle.turn_laws.specs.Steady.{AreSteady};

/// A command that asks for something asks for it with more marks too, and with no more than it spent. With an answer that a request follows it asks for
/// that at once; with another it asks for the answer of no task, and its next request costs a mark.
pub fn steady()
    ensures { AreSteady }
{}
