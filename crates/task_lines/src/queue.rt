//! Lines that wait at the channel of a task.
ghost use Rattle.std.specs.Prelude.{◌≤◌, ℕ, Bool, List, IfOk, OnOk};
ghost use Rattle.task_lines.specs.Below.elan_scope.specs.declared.env.Env.{Env};
ghost use Rattle.terminals.specs.Channels as channels;
ghost use Rattle.task_lines.specs.Below.system_meaning.specs.Systems.{Moment};
ghost use Rattle.task_lines.specs.Below.system_meaning.specs.Monitor as spec;
ghost use Rattle.task_lines.specs.Below.packet_store.specs.Readings.{IsReading};
ghost use Rattle.live_system.specs.Machines.{StandsAt};
ghost use Rattle.task_lines.specs.Queues.{one_taken, Follows};

use crate::lines::take;
use eu_base::NoMemory;
use live_system::System;
use std::alloc::Global;
use task_numbers::TaskNo;

/// Lines that wait are taken until the task runs or none is left, so many at most.
pub(crate) fn drain(
    alloc: Global,
    system: &mut System,
    task: TaskNo,
    most: usize,
) -> Result<(), NoMemory>
    ensures { OnOk result ((read : Env → Bool → List ℕ → spec.Reading) → IsReading read → (m : Moment) → StandsAt system.old m
        → StandsAt system.new (spec.drained_in read most task m)) }
{
    for k in 0..most {
        let took = take_one(alloc, system, task)?;
        if !took {
            return Ok(());
        }
    }
    Ok(())
}

/// The oldest line that waits is taken, unless the task runs; whether one was.
fn take_one(alloc: Global, system: &mut System, task: TaskNo) -> Result<bool, NoMemory>
    ensures { IfOk result (λ took. (read : Env → Bool → List ℕ → spec.Reading) → IsReading read → (m : Moment) → StandsAt system.old m
        → Follows took system.new (one_taken read task m) m) }
{
    if system.runs(task) {
        return Ok(false);
    }
    match system.channel_of(task) {
        None => Ok(false),
        Some(channel) => take_at(alloc, system, task, channel),
    }
}

/// A task takes the oldest line that waits at a channel; whether there was one.
fn take_at(alloc: Global, system: &mut System, task: TaskNo, channel: u8) -> Result<bool, NoMemory>
    requires low { 1 ≤ channel }
    requires high { channel ≤ 4 }
    ensures { IfOk result (λ took. (read : Env → Bool → List ℕ → spec.Reading) → IsReading read → (m : Moment) → StandsAt system.old m
        → Follows took system.new (λ more. spec.oldest_taken read (channels.channel channel m.system.shared.channels).queue channel task more m) m) }
{
    match system.unqueue(channel) {
        None => Ok(false),
        Some(line) => {
            take(alloc, system, task, line)?;
            Ok(true)
        }
    }
}
