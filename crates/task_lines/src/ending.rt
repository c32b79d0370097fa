//! A command that is over.
ghost use Rattle.std.specs.Prelude.{◌≡◌, ◌++◌, ℕ, Bool, List, IfOk, OnOk};
ghost use Rattle.task_lines.specs.Below.elan_scope.specs.declared.env.Env.{Env};
ghost use Rattle.elan_types.specs.Eval.{World};
ghost use Rattle.task_lines.specs.Below.system_meaning.specs.Tasks.{Command};
ghost use Rattle.task_lines.specs.Below.system_meaning.specs.Systems.{Moment, tell};
ghost use Rattle.task_lines.specs.Below.system_meaning.specs.Monitor as spec;
ghost use Rattle.task_lines.specs.Below.packet_store.specs.Readings.{IsReading};
ghost use Rattle.live_system.specs.Finishing.{HasRoom};
ghost use Rattle.live_system.specs.Machines.{StandsAt, StandsOverAt};

use crate::queue::drain;
use eu_base::{Bytes, NoMemory, Stop};
use live_system::{Finished, System};
use std::alloc::Global;
use task_numbers::TaskNo;
use terminals::QUEUED_LINES;

/// A command is over: what it leads to happens, its stop is told, and the task prompts and takes the lines that wait.
pub fn over(
    alloc: Global,
    system: &mut System,
    task: TaskNo,
    finished: Finished,
) -> Result<(), NoMemory>
    ensures { OnOk result ((read : Env → Bool → List ℕ → spec.Reading) → IsReading read → (m : Moment) (c : Command) (w : World) → finished.unit ≡ c.unit
        → StandsOverAt system.old task c w m → HasRoom finished.stop c → StandsAt system.new (spec.over read task c finished.stop w m)) }
{
    let stop = system.finish(alloc, task, finished)?;
    rest_with(alloc, system, task, stop)
}

/// A task is idle behind a command; where this stopped, that is told.
fn rest_with(
    alloc: Global,
    system: &mut System,
    task: TaskNo,
    stop: Option<Stop>,
) -> Result<(), NoMemory>
    ensures { OnOk result ((read : Env → Bool → List ℕ → spec.Reading) → IsReading read → (m : Moment) → StandsAt system.old m
        → StandsAt system.new (spec.rested_with read stop task m)) }
{
    match stop {
        None => rest(alloc, system, task),
        Some(stop) => {
            tell_stop(alloc, system, task, &stop)?;
            rest(alloc, system, task)
        }
    }
}

fn rest(alloc: Global, system: &mut System, task: TaskNo) -> Result<(), NoMemory>
    ensures { OnOk result ((read : Env → Bool → List ℕ → spec.Reading) → IsReading read → (m : Moment) → StandsAt system.old m
        → StandsAt system.new (spec.rested read task m)) }
{
    system.prompt(task)?;
    drain(alloc, system, task, QUEUED_LINES)
}

fn tell_stop(alloc: Global, system: &mut System, task: TaskNo, stop: &Stop) -> Result<(), NoMemory>
    ensures { OnOk result ((m : Moment) → StandsAt system.old m → StandsAt system.new (tell task (spec.stop_told stop.now) m)) }
{
    let told = stop_told(alloc, stop)?;
    system.tell(task, told.as_slice())
}

/// What is told of a stop.
fn stop_told(alloc: Global, stop: &Stop) -> Result<Bytes, NoMemory>
    ensures { IfOk result (λ told. told ≡ spec.stop_told stop.now) }
{
    let mut told = Bytes::from(alloc, b"FEHLER : ")?;
    let text = stop.text(alloc)?;
    told.append(text.as_slice())?;
    Ok(told)
}
