//! `task info` and `storage info`.
ghost use Rattle.std.specs.Prelude.{◌≡◌, ◌≤◌, ◌*◌, ◌∷◌, ◌++◌, replicate, IfOk, OnOk};
ghost use Rattle.std.specs.Fmt.{decimal};
ghost use Rattle.supervisor.specs.Below.system_meaning.specs.Systems.{Moment, say, supervisor_prompt};
ghost use Rattle.supervisor.specs.Below.system_meaning.specs.Supervisor as spec;
ghost use Rattle.supervisor.specs.Below.live_system.specs.Machines.{StandsAt};

use crate::answers::{refused, say_supervisor_prompt, told};
use eu_base::{Bytes, List, NoMemory};
use itoa::Buffer;
use std::alloc::Global;
use task_lines::System;
use task_tree::Entry;

/// The tasks are told.
pub(crate) fn tell_tasks(alloc: Global, system: &mut System, channel: u8) -> Result<(), NoMemory>
    requires low { 1 ≤ channel }
    requires high { channel ≤ 4 }
    ensures { OnOk result ((m : Moment) → StandsAt system.old m
        → StandsAt system.new (say channel supervisor_prompt (spec.told channel (spec.task_info m.system) m))) }
{
    let lines = task_info(alloc, system)?;
    told(system, channel, lines.as_slice())?;
    say_supervisor_prompt(system, channel)?;
    Ok(())
}

/// How much there is of what is limited is told.
pub(crate) fn tell_storage(alloc: Global, system: &mut System, channel: u8) -> Result<(), NoMemory>
    requires low { 1 ≤ channel }
    requires high { channel ≤ 4 }
    ensures { OnOk result ((m : Moment) → StandsAt system.old m
        → StandsAt system.new (spec.refused channel (spec.storage_info m.system) m)) }
{
    let text = storage_info(alloc, system)?;
    refused(system, channel, text.as_slice())?;
    Ok(())
}

/// A line for each task, UR first and each father before his sons.
fn task_info(alloc: Global, system: &System) -> Result<List<Bytes>, NoMemory>
    ensures { IfOk result (λ lines. (m : Moment) → StandsAt system.now m → lines ≡ spec.task_info m.system) }
{
    let entries = system.listed(alloc)?;
    let mut lines = List::new(alloc);
    for entry in &entries {
        lines.push(info_line(alloc, system, *entry)?)?;
    }
    Ok(lines)
}

/// A task with its level, its name, what it does and its channel.
fn info_line(alloc: Global, system: &System, entry: Entry) -> Result<Bytes, NoMemory>
    ensures { IfOk result (λ line. (m : Moment) → StandsAt system.now m → line ≡ spec.info_line m.system entry) }
{
    let name = system.name(entry.task);
    let state = system.state(entry.task);
    let channel = system.channel_of(entry.task);
    let line = line_of(alloc, entry.level, name, state, channel)?;
    Ok(line)
}

/// A level, a name, a state and a channel as a line.
fn line_of(
    alloc: Global,
    level: u32,
    name: &[u8],
    state: &[u8],
    channel: Option<u8>,
) -> Result<Bytes, NoMemory>
    ensures { IfOk result (λ line. line ≡ replicate (level * 2) 32 ++ (name.now ++ (32 ∷ (state.now ++ spec.channel_text channel)))) }
{
    let mut line = indentation(alloc, level)?;
    line.append(name)?;
    line.append(b" ")?;
    line.append(state)?;
    append_channel(&mut line, channel)?;
    Ok(line)
}

/// Two blanks for each level.
fn indentation(alloc: Global, levels: u32) -> Result<Bytes, NoMemory>
    ensures { IfOk result (λ line. line ≡ replicate (levels * 2) 32) }
{
    let mut line = Bytes::new(alloc);
    for _ in 0..levels {
        line.append(b"  ")?;
    }
    Ok(line)
}

fn append_channel(line: &mut Bytes, channel: Option<u8>) -> Result<(), NoMemory>
    ensures { OnOk result (line.new ≡ line.old ++ spec.channel_text channel) }
{
    match channel {
        None => Ok(()),
        Some(channel) => {
            line.append(b" Kanal ")?;
            append_decimal(line, usize::from(channel))
        }
    }
}

/// How much there is of what is limited.
fn storage_info(alloc: Global, system: &System) -> Result<Bytes, NoMemory>
    ensures { IfOk result (λ text. (m : Moment) → StandsAt system.now m → text ≡ spec.storage_info m.system) }
{
    let mut text = Bytes::from(alloc, b"Tasks ")?;
    append_decimal(&mut text, system.tasks())?;
    text.append(b" Datenraeume ")?;
    append_decimal(&mut text, system.spaces())?;
    text.append(b" Pakete ")?;
    append_decimal(&mut text, system.packets())?;
    Ok(text)
}

fn append_decimal(line: &mut Bytes, number: usize) -> Result<(), NoMemory>
    ensures { OnOk result (line.new ≡ line.old ++ decimal number) }
{
    let mut buffer = Buffer::new();
    line.append(buffer.format(number).as_bytes())
}
