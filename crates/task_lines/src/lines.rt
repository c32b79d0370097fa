//! A line for a task.
ghost use Rattle.std.specs.Prelude.{◌≤◌, ℕ, Bool, List, length, OnOk};
ghost use Rattle.task_numbers.specs.declared.limits.TheConstants.{LONGEST_LINE};
ghost use Rattle.task_lines.specs.Below.elan_scope.specs.declared.env.Env.{Env};
ghost use Rattle.task_lines.specs.Below.system_meaning.specs.Systems.{Moment};
ghost use Rattle.task_lines.specs.Below.system_meaning.specs.Monitor as spec;
ghost use Rattle.task_lines.specs.Below.packet_store.specs.Readings.{IsReading};
ghost use Rattle.live_system.specs.Machines.{StandsAt};

use crate::entering::enter_line;
use crate::idle::take_idle;
use eu_base::{Bytes, NoMemory};
use live_system::{System, What};
use std::alloc::Global;
use task_numbers::TaskNo;

/// A task takes a line, where it is idle or enters a text.
pub fn take(alloc: Global, system: &mut System, task: TaskNo, line: Bytes) -> Result<(), NoMemory>
    ensures { OnOk result ((read : Env → Bool → List ℕ → spec.Reading) → IsReading read → (m : Moment) → length line ≤ LONGEST_LINE
        → StandsAt system.old m → StandsAt system.new (spec.taken read task line m)) }
{
    match system.what(task) {
        What::Idle => take_idle(alloc, system, task, line.as_slice()),
        What::Entering => enter_line(alloc, system, task, line),
        What::Gone => Ok(()),
        What::Running => Ok(()),
    }
}
