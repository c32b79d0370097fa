//! How many evaluations a slice needs.
ghost use Rattle.task_numbers.specs.declared.number.TaskNo.{TaskNo};
ghost use Rattle.system.specs.Below.system_meaning.specs.Systems.{Moment};
ghost use Rattle.system.specs.Below.system_meaning.specs.Turns.{most_evaluations};
ghost use Rattle.system.specs.Slices.{IsEnough};
ghost use Rattle.system.specs.Below.live_system.specs.Machines.{StandsAt};
ghost use Rattle.turn_laws.specs.Waits.{HasTurn};

use crate::below::of_live_system::System;
use turn_laws::steady;

/// A slice of a task that has its turn needs no more evaluations than it may have, since each request costs a mark: with more of them allowed it would
/// end the same. The answer of a call costs none, and its task rests there.
pub fn enough(system: &System)
    ensures { (m : Moment) → StandsAt system.now m → (task : TaskNo) → HasTurn task m.system → IsEnough most_evaluations task m }
{
    system.law();
    steady();
}
