//! A task in its turn asks for what it may.
ghost use Rattle.task_numbers.specs.declared.number.TaskNo.{TaskNo};
ghost use Rattle.turn_laws.specs.Waits.{AreOrderly, HasTurn};
ghost use Rattle.system.specs.Below.system_meaning.specs.Systems.{Moment};
ghost use Rattle.system.specs.Below.live_system.specs.Machines.{StandsAt};
ghost use Rattle.system.specs.Keeping.{KeepsTurn, TurnBegins};

use task_requests::System;
use turn_laws::{steady, turns_go_on};

/// The first ready task has its turn.
pub(crate) fn turn_begins(system: &System)
    ensures { (m : Moment) → StandsAt system.now m → AreOrderly m.system → TurnBegins m.system.shared.ready m.system }
{
    system.law();
    turns_go_on();
}

/// A task that has its turn asks for what it may, and has its turn still where it is answered.
pub(crate) fn keeps_turn(system: &System)
    ensures { (m : Moment) → StandsAt system.now m → (task : TaskNo) → HasTurn task m.system → KeepsTurn task m }
{
    system.law();
    steady();
    turns_go_on();
}
