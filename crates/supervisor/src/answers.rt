//! What is said at a channel.
ghost use Rattle.std.specs.Prelude.{◌≤◌, OnOk};
ghost use Rattle.supervisor.specs.Below.system_meaning.specs.Systems.{Moment, say, prompt, supervisor_prompt};
ghost use Rattle.supervisor.specs.Below.system_meaning.specs.Supervisor.{refused, told};
ghost use Rattle.supervisor.specs.Below.live_system.specs.Machines.{StandsAt};

use eu_base::{Bytes, NoMemory};
use task_lines::System;

/// The prompt of a task.
pub(crate) fn say_prompt(system: &mut System, channel: u8) -> Result<(), NoMemory>
    requires low { 1 ≤ channel }
    requires high { channel ≤ 4 }
    ensures { OnOk result ((m : Moment) → StandsAt system.old m → StandsAt system.new (say channel prompt m)) }
{
    system.say(channel, b"gib kommando :")
}

/// The prompt of the supervisor.
pub(crate) fn say_supervisor_prompt(system: &mut System, channel: u8) -> Result<(), NoMemory>
    requires low { 1 ≤ channel }
    requires high { channel ≤ 4 }
    ensures { OnOk result ((m : Moment) → StandsAt system.old m → StandsAt system.new (say channel supervisor_prompt m)) }
{
    system.say(channel, b"gib supervisor kommando :")
}

/// An answer that leaves the channel uncoupled.
pub(crate) fn refused(system: &mut System, channel: u8, answer: &[u8]) -> Result<(), NoMemory>
    requires low { 1 ≤ channel }
    requires high { channel ≤ 4 }
    ensures { OnOk result ((m : Moment) → StandsAt system.old m → StandsAt system.new (refused channel answer.now m)) }
{
    system.say(channel, answer)?;
    say_supervisor_prompt(system, channel)?;
    Ok(())
}

/// Lines, one after another.
pub(crate) fn told(system: &mut System, channel: u8, lines: &[Bytes]) -> Result<(), NoMemory>
    requires low { 1 ≤ channel }
    requires high { channel ≤ 4 }
    ensures { OnOk result ((m : Moment) → StandsAt system.old m → StandsAt system.new (told channel lines.now m)) }
{
    for line in lines {
        system.say(channel, line.as_slice())?;
    }
    Ok(())
}
