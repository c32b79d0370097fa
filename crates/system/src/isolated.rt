//! Tasks of a running system are isolated from each other.
ghost use Rattle.std.specs.Prelude.{◌≡◌, ℕ, Bool, List, length};
ghost use Rattle.task_numbers.specs.declared.number.TaskNo.{TaskNo};
ghost use Rattle.system.specs.Below.elan_scope.specs.declared.env.Env.{Env};
ghost use Rattle.system.specs.Below.system_meaning.specs.Systems.{Moment};
ghost use Rattle.system.specs.Below.system_meaning.specs.Monitor.{Reading};
ghost use Rattle.system.specs.Below.system_meaning.specs.Turns.{turn};
ghost use Rattle.system.specs.Below.system_meaning.specs.Whole.{IsSystem};
ghost use Rattle.system.specs.Below.live_system.specs.Machines.{StandsAt};
ghost use Rattle.turn_laws.specs.Others.{OthersStay};
ghost use Rattle.turn_laws.specs.Told.{turn_told, turn_asked};
ghost use Rattle.turn_laws.specs.Waits.{AreOrderly};
ghost use Rattle.turn_laws.specs.Worlds.{SameFor, GoesSame, IsNext};

use task_requests::System;
use turn_laws::{others_stay, turns_alike};

/// The turn that comes next leaves what is the own of each other task that it does not reach.
pub fn others(system: &System)
    ensures { (read : Env → Bool → List ℕ → Reading) → (m : Moment) → StandsAt system.now m → AreOrderly m.system
        → OthersStay m.system.shared.ready (turn_asked m) m.system (turn read m).system }
{
    system.law();
    others_stay();
}

/// The turn that comes next depends on nothing but what is the task's own, its channel, and what it is told: in any other system where these are
/// the same it comes to the same, and the same is shown at its channel.
pub fn two_worlds(system: &System)
    ensures { (read : Env → Bool → List ℕ → Reading) → (u : TaskNo) → (m : Moment) → (n : Moment) → StandsAt system.now m → IsSystem n.system
        → AreOrderly m.system → AreOrderly n.system → length m.display.unfinished ≡ 4 → length n.display.unfinished ≡ 4 → IsNext u m.system.shared.ready → IsNext u n.system.shared.ready
        → SameFor u m n → turn_told m ≡ turn_told n → GoesSame u m n (turn read m) (turn read n) }
{
    system.law();
    turns_alike();
}
