//! The supervisor's commands, and its call.
ghost use Rattle.std.specs.Prelude.{◌≡◌, ◌≤◌, ℕ, List, Bool, IfOk, OnOk};
ghost use Rattle.supervisor.specs.Below.elan_scope.specs.declared.env.Env.{Env};
ghost use Rattle.monitor.specs.Commands.{command_of};
ghost use Rattle.monitor.specs.Words.{words};
ghost use Rattle.supervisor.specs.Below.terminals.specs.Channels as channels;
ghost use Rattle.supervisor.specs.Below.system_meaning.specs.Systems.{Moment};
ghost use Rattle.supervisor.specs.Below.system_meaning.specs.Monitor.{Reading, words_of};
ghost use Rattle.supervisor.specs.Below.packet_store.specs.Readings.{IsReading};
ghost use Rattle.supervisor.specs.Below.system_meaning.specs.Supervisor as spec;
ghost use Rattle.supervisor.specs.Below.live_system.specs.Machines.{StandsAt};
ghost use Rattle.supervisor.specs.Lines.{command_in};

use crate::answers::{refused, say_supervisor_prompt};
use crate::begin::begin_under;
use crate::continuing::continue_named;
use crate::halting::halt_last;
use crate::info::{tell_storage, tell_tasks};
use elan_lexer::{LexError, tokens};
use elan_tree::Token;
use eu_base::{List, NoMemory};
use monitor::{Command, supervisor};
use std::alloc::Global;
use task_lines::System;

/// A line comes at a channel where no task is coupled.
pub fn supervise(
    alloc: Global,
    system: &mut System,
    channel: u8,
    line: &[u8],
) -> Result<(), NoMemory>
    requires low { 1 ≤ channel }
    requires high { channel ≤ 4 }
    ensures { OnOk result ((read : Env → Bool → List ℕ → Reading) → IsReading read → (m : Moment) → StandsAt system.old m
        → StandsAt system.new (spec.worded read (words_of line.now) channel m)) }
{
    let command = command_in(alloc, line)?;
    supervised(alloc, system, channel, &command)?;
    Ok(())
}

/// The supervisor is called at a channel: the task there is its last one then.
pub fn call(system: &mut System, channel: u8) -> Result<(), NoMemory>
    requires low { 1 ≤ channel }
    requires high { channel ≤ 4 }
    ensures { OnOk result ((m : Moment) → StandsAt system.old m
        → StandsAt system.new (spec.called (channels.channel channel m.system.shared.channels).task channel m)) }
{
    let task = system.task_at(channel);
    if task.is_nil() {
        return say_supervisor_prompt(system, channel);
    }
    system.set_last(channel, task);
    system.uncouple(channel)?;
    Ok(())
}

/// The command of a line. A line too long for the lexer's places, of 4 GiB, is refused as if memory were.
fn command_in(alloc: Global, line: &[u8]) -> Result<Command, NoMemory>
    ensures { IfOk result (λ command. command ≡ command_in (words_of line.now)) }
{
    if line.len() > u32::MAX as usize {
        return Err(NoMemory);
    }
    match tokens(alloc, line) {
        Ok(tokens) => command_with(alloc, tokens),
        Err(LexError::NoMemory) => Err(NoMemory),
        Err(LexError::NoToken(_)) | Err(LexError::TooMany) => Ok(Command::Unknown),
    }
}

/// The command of tokens, which are let go.
fn command_with(alloc: Global, tokens: List<Token>) -> Result<Command, NoMemory>
    ensures { IfOk result (λ command. command ≡ command_of (words tokens)) }
{
    let command = supervisor(alloc, tokens.as_slice());
    Token::all_let_go(tokens);
    command
}

/// A command at a channel where no task is coupled.
fn supervised(
    alloc: Global,
    system: &mut System,
    channel: u8,
    command: &Command,
) -> Result<(), NoMemory>
    requires low { 1 ≤ channel }
    requires high { channel ≤ 4 }
    ensures { OnOk result ((read : Env → Bool → List ℕ → Reading) → IsReading read → (m : Moment) → StandsAt system.old m
        → StandsAt system.new (spec.supervised read command.now channel m)) }
{
    match command {
        Command::Blank => say_supervisor_prompt(system, channel),
        Command::Begin { name, father } => {
            begin_under(alloc, system, channel, name.as_slice(), father.as_slice())
        }
        Command::Continue(name) => continue_named(alloc, system, channel, name.as_slice()),
        Command::Halt => halt_last(alloc, system, channel),
        Command::TaskInfo => tell_tasks(alloc, system, channel),
        Command::StorageInfo => tell_storage(alloc, system, channel),
        Command::Unknown => refused(system, channel, b"unbekanntes Kommando"),
    }
}
