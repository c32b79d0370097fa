//! Answers to an idle task.
ghost use Rattle.std.specs.Prelude.{◌≡◌, OnOk};
ghost use Rattle.eu_base.specs.Stops.{stop_text};
ghost use Rattle.task_lines.specs.Below.system_meaning.specs.Systems.{Moment};
ghost use Rattle.task_lines.specs.Below.system_meaning.specs.Monitor as spec;
ghost use Rattle.live_system.specs.Machines.{StandsAt};

use eu_base::{NoMemory, Stop};
use live_system::System;
use std::alloc::Global;
use task_numbers::TaskNo;

/// An answer is told, and the task prompts.
pub(crate) fn answer(system: &mut System, task: TaskNo, bytes: &[u8]) -> Result<(), NoMemory>
    ensures { OnOk result ((m : Moment) → StandsAt system.old m → StandsAt system.new (spec.answered task bytes.now m)) }
{
    system.tell(task, bytes)?;
    system.prompt(task)?;
    Ok(())
}

/// The answer is the text of a stop.
pub(crate) fn answer_stop(
    alloc: Global,
    system: &mut System,
    task: TaskNo,
    stop: &Stop,
) -> Result<(), NoMemory>
    ensures { OnOk result ((m : Moment) → StandsAt system.old m → StandsAt system.new (spec.answered task (stop_text stop.now) m)) }
{
    let text = stop.text(alloc)?;
    answer(system, task, text.as_slice())
}
