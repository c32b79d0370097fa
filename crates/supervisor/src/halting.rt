//! `halt`: the last task is coupled, and its command stops.
ghost use Rattle.std.specs.Prelude.{◌≡◌, ◌≤◌, ℕ, List, Bool, Some, OnOk};
ghost use Rattle.eu_base.specs.declared.stop.Stop.TheVariants.{Halted};
ghost use Rattle.supervisor.specs.Below.elan_scope.specs.declared.env.Env.{Env};
ghost use Rattle.supervisor.specs.Below.message_wait.specs.Rendezvous.{left};
ghost use Rattle.supervisor.specs.Below.slicer.specs.Rotation as rotation;
ghost use Rattle.supervisor.specs.Below.terminals.specs.Channels as channels;
ghost use Rattle.supervisor.specs.Below.system_meaning.specs.Tasks.{Command, Running, ending, world_of};
ghost use Rattle.supervisor.specs.Below.system_meaning.specs.Systems.{Moment, doing, on_ready, on_waits, on_system};
ghost use Rattle.supervisor.specs.Below.system_meaning.specs.Monitor.{Reading};
ghost use Rattle.supervisor.specs.Below.system_meaning.specs.Monitor as monitor;
ghost use Rattle.supervisor.specs.Below.packet_store.specs.Readings.{IsReading};
ghost use Rattle.supervisor.specs.Below.system_meaning.specs.Supervisor as spec;
ghost use Rattle.supervisor.specs.Below.live_system.specs.Machines.{StandsAt};

use crate::answers::{refused, say_prompt};
use eu_base::NoMemory;
use std::alloc::Global;
use task_lines::{System, What, over};
use task_numbers::TaskNo;

/// The last task of a channel is coupled and its command stops; or why it cannot be coupled is said.
pub(crate) fn halt_last(alloc: Global, system: &mut System, channel: u8) -> Result<(), NoMemory>
    requires low { 1 ≤ channel }
    requires high { channel ≤ 4 }
    ensures { OnOk result ((read : Env → Bool → List ℕ → Reading) → IsReading read → (m : Moment) → StandsAt system.old m
        → let task = (channels.channel channel m.system.shared.channels).last in
        StandsAt system.new (spec.unless (spec.coupling_refusal task m.system) channel (spec.halted read channel task) m)) }
{
    let task = system.last_at(channel);
    match system.coupling_refusal(task) {
        Some(answer) => refused(system, channel, answer),
        None => halted(alloc, system, channel, task),
    }
}

/// A task is coupled and its command stops.
fn halted(alloc: Global, system: &mut System, channel: u8, task: TaskNo) -> Result<(), NoMemory>
    requires low { 1 ≤ channel }
    requires high { channel ≤ 4 }
    ensures { OnOk result ((read : Env → Bool → List ℕ → Reading) → IsReading read → (m : Moment) → StandsAt system.old m
        → StandsAt system.new (spec.halted read channel task m)) }
{
    system.couple(channel, task);
    stopped(alloc, system, channel, task)?;
    Ok(())
}

/// A command that runs stops, and a text that is entered is dropped.
fn stopped(alloc: Global, system: &mut System, channel: u8, task: TaskNo) -> Result<(), NoMemory>
    requires low { 1 ≤ channel }
    requires high { channel ≤ 4 }
    ensures { OnOk result ((read : Env → Bool → List ℕ → Reading) → IsReading read → (m : Moment) → StandsAt system.old m
        → StandsAt system.new (spec.halted_by read (doing task m.system) channel task m)) }
{
    match system.what(task) {
        What::Gone => Ok(()),
        What::Idle => say_prompt(system, channel),
        What::Entering => {
            system.drop_text(task);
            say_prompt(system, channel)?;
            Ok(())
        }
        What::Running => command_halted(alloc, system, task),
    }
}

/// The command that a task runs stops, and the task waits for no message any more.
fn command_halted(alloc: Global, system: &mut System, task: TaskNo) -> Result<(), NoMemory>
    ensures { OnOk result ((read : Env → Bool → List ℕ → Reading) → IsReading read → (m : Moment) (c : Command)
        → doing task m.system ≡ Some (Running c) → StandsAt system.old m
        → StandsAt system.new (monitor.over read task c (Some Halted) (world_of (ending c 0)) (on_system (on_waits (left task)) (on_system (on_ready (rotation.without task)) m)))) }
{
    system.leave(task);
    system.stop_waiting(task);
    match system.halt(task) {
        Some(finished) => over(alloc, system, task, finished),
        None => Ok(()),
    }
}
