//! Lines that come in at channels.
ghost use Rattle.std.specs.Prelude.{◌≡◌, ◌≤◌, ℕ, Bool, true, List, Some, length, OnOk};
ghost use Rattle.eu_base.specs.Requests.{plain, is_plain};
ghost use Rattle.task_numbers.specs.declared.limits.TheConstants.{LONGEST_LINE};
ghost use Rattle.system.specs.Below.elan_scope.specs.declared.env.Env.{Env};
ghost use Rattle.system.specs.Below.terminals.specs.Channels as channels;
ghost use Rattle.system.specs.Below.system_meaning.specs.Systems.{Moment, requested, runs, woken, on_system};
ghost use Rattle.system.specs.Below.system_meaning.specs.Serving as serving;
ghost use Rattle.system.specs.Below.system_meaning.specs.Monitor.{Reading};
ghost use Rattle.system.specs.Below.packet_store.specs.Readings.{IsReading};
ghost use Rattle.system.specs.Below.system_meaning.specs.Events as spec;
ghost use Rattle.system.specs.Below.live_system.specs.Machines.{StandsAt};

use eu_base::{Bytes, NoMemory, Reply};
use std::alloc::Global;
use supervisor::{supervise, take};
use task_numbers::TaskNo;
use task_requests::{System, input};

/// A line comes at a channel; at another than 1 to 4 comes none.
pub(crate) fn line_at(
    alloc: Global,
    system: &mut System,
    channel: u8,
    line: &[u8],
) -> Result<(), NoMemory>
    ensures { OnOk result ((read : Env → Bool → List ℕ → Reading) → IsReading read → (m : Moment) → 1 ≤ channel → channel ≤ 4 → length line.now ≤ LONGEST_LINE
        → StandsAt system.old m
        → StandsAt system.new (spec.line_at read (channels.channel channel m.system.shared.channels).task channel line.now m)) }
{
    if channel < 1 {
        return Ok(());
    }
    if channel > 4 {
        return Ok(());
    }
    line_for_one(alloc, system, channel, line)
}

/// It is for the task there, and at an uncoupled channel for the supervisor.
fn line_for_one(
    alloc: Global,
    system: &mut System,
    channel: u8,
    line: &[u8],
) -> Result<(), NoMemory>
    requires low { 1 ≤ channel }
    requires high { channel ≤ 4 }
    ensures { OnOk result ((read : Env → Bool → List ℕ → Reading) → IsReading read → (m : Moment) → length line.now ≤ LONGEST_LINE → StandsAt system.old m
        → StandsAt system.new (spec.line_at read (channels.channel channel m.system.shared.channels).task channel line.now m)) }
{
    let task = system.task_at(channel);
    if task.is_nil() {
        return supervise(alloc, system, channel, line);
    }
    line_for(alloc, system, channel, task, line)
}

/// A line for a task. It waits while the task runs.
fn line_for(
    alloc: Global,
    system: &mut System,
    channel: u8,
    task: TaskNo,
    line: &[u8],
) -> Result<(), NoMemory>
    requires low { 1 ≤ channel }
    requires high { channel ≤ 4 }
    ensures { OnOk result ((read : Env → Bool → List ℕ → Reading) → IsReading read → (m : Moment) → length line.now ≤ LONGEST_LINE → StandsAt system.old m
        → StandsAt system.new (spec.line_for read (runs task m.system) channel task line.now m)) }
{
    let line = Bytes::from(alloc, line)?;
    if system.runs(task) {
        queued(system, channel, task, line)
    } else {
        take(alloc, system, task, line)
    }
}

/// A line waits in the queue, where it has room.
fn queued(system: &mut System, channel: u8, task: TaskNo, line: Bytes) -> Result<(), NoMemory>
    requires low { 1 ≤ channel }
    requires high { channel ≤ 4 }
    ensures { OnOk result ((m : Moment) → length line ≤ LONGEST_LINE → StandsAt system.old m → StandsAt system.new (spec.queued channel task line m)) }
{
    if system.is_queue_full(channel) {
        return system.say(channel, b"Zeile verworfen");
    }
    system.queue_line(channel, line);
    awaited(system, channel, task)
}

/// A task that waits for a line gets it.
fn awaited(system: &mut System, channel: u8, task: TaskNo) -> Result<(), NoMemory>
    requires low { 1 ≤ channel }
    requires high { channel ≤ 4 }
    ensures { OnOk result ((m : Moment) → StandsAt system.old m → StandsAt system.new (spec.awaited (requested task m.system) channel task m)) }
{
    if system.awaits_line(task) {
        answered(system, channel, task)
    } else {
        Ok(())
    }
}

/// A task gets the oldest line that waits.
fn answered(system: &mut System, channel: u8, task: TaskNo) -> Result<(), NoMemory>
    requires low { 1 ≤ channel }
    requires high { channel ≤ 4 }
    ensures { OnOk result ((m : Moment) → StandsAt system.old m → StandsAt system.new (spec.answered (serving.input (Some channel) m) task)) }
{
    match input(system, Some(channel)) {
        Some(reply) => woken(system, task, reply),
        None => Ok(()),
    }
}

/// A task that waits gets its reply, and is ready.
fn woken(system: &mut System, task: TaskNo, reply: Reply) -> Result<(), NoMemory>
    requires plain { is_plain reply ≡ true }
    ensures { OnOk result ((m : Moment) → StandsAt system.old m → StandsAt system.new (on_system (woken task (plain reply)) m)) }
{
    system.reply(task, reply)?;
    system.back(task);
    Ok(())
}
