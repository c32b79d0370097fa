//! Evaluations of the command of a task in its turn.
ghost use Rattle.std.specs.Prelude.{◌≡◌, ℕ, Bool, List, IfOk};
ghost use Rattle.system.specs.Below.elan_scope.specs.declared.env.Env.{Env};
ghost use Rattle.turn_laws.specs.Waits.{HasTurn};
ghost use Rattle.system.specs.Below.system_meaning.specs.Systems.{Moment, command};
ghost use Rattle.system.specs.Below.system_meaning.specs.Monitor.{Reading};
ghost use Rattle.system.specs.Below.packet_store.specs.Readings.{IsReading};
ghost use Rattle.system.specs.Below.system_meaning.specs.Turns as spec;
ghost use Rattle.system.specs.Below.live_system.specs.Machines.{StandsAt};
ghost use Rattle.system.specs.Leading.{Leads, TurnGoes};

use crate::waiting::keeps_turn;
use eu_base::NoMemory;
use std::alloc::Global;
use supervisor::over;
use task_numbers::TaskNo;
use task_requests::{System, Went, serve};

/// A task that has its turn is evaluated once, with so many marks. Whether it goes on with those that are left then.
pub(crate) fn evaluation(
    alloc: Global,
    system: &mut System,
    task: TaskNo,
    left: &mut u32,
) -> Result<bool, NoMemory>
    ensures { IfOk result (λ goes. (read : Env → Bool → List ℕ → Reading) → IsReading read → (m : Moment) → HasTurn task m.system → StandsAt system.old m
        → (more : ℕ → Moment → Moment)
        → Leads goes (TurnGoes task goes) system.new (more left.new) (spec.went_on read (command task m.system) left.old more task m)) }
{
    keeps_turn(system);
    match system.go_on(task, left)? {
        Went::NotRunning => Ok(false),
        Went::Marked => {
            system.back(task);
            Ok(false)
        }
        Went::Asks(request) => serve(alloc, system, task, request),
        Went::Over(finished) => {
            over(alloc, system, task, finished)?;
            Ok(false)
        }
    }
}
