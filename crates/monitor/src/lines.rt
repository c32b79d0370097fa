//! Lines as commands.
ghost use Rattle.std.specs.Prelude.{◌≡◌, IfOk, option_map};
ghost use Rattle.monitor.specs.Commands as commands;
ghost use Rattle.monitor.specs.Forms as forms;
ghost use Rattle.monitor.specs.Words.{words};

use crate::words::{is, text_in, texts_in};
use crate::{Command, Form};
use containers::{Bytes, NoMemory};
use elan_tree::{Token, Word};
use std::alloc::Global;

/// What a line with these tokens is at an idle task.
pub fn form(alloc: Global, tokens: &[Token]) -> Result<Form, NoMemory>
    ensures form { IfOk result (λ form. form ≡ forms.form_of (words tokens.now)) }
    ensures spelled { IfOk result (λ form. forms.IsForm (words tokens.now) form) }
{
    match tokens {
        [] => Ok(Form::Blank),
        [first, behind @ ..] => match &first.what {
            Word::Ident(name) => form_named(alloc, name.as_slice(), behind),
            _ => Ok(Form::Program),
        },
    }
}

/// The form of a name and what stands behind it.
fn form_named(alloc: Global, name: &[u8], behind: &[Token]) -> Result<Form, NoMemory>
    ensures { IfOk result (λ form. form ≡ forms.form_named name.now (words behind.now)) }
{
    if behind.is_empty() {
        return Ok(if is(name, b"list") {
            Form::Names
        } else {
            Form::Program
        });
    }
    match text_in(behind) {
        Some(text) => form_with(alloc, name, text),
        None => Ok(Form::Program),
    }
}

/// The form of a name with a text between brackets.
fn form_with(alloc: Global, name: &[u8], text: &[u8]) -> Result<Form, NoMemory>
    ensures { IfOk result (λ form. form ≡ forms.form_with name.now text.now) }
{
    if is(name, b"enter") {
        Ok(Form::Enter(Bytes::from(alloc, text)?))
    } else if is(name, b"run") {
        Ok(Form::Run(Bytes::from(alloc, text)?))
    } else if is(name, b"insert") {
        Ok(Form::Insert(Bytes::from(alloc, text)?))
    } else {
        Ok(Form::Program)
    }
}

/// What a line with these tokens is at the supervisor.
pub fn supervisor(alloc: Global, tokens: &[Token]) -> Result<Command, NoMemory>
    ensures command { IfOk result (λ command. command ≡ commands.command_of (words tokens.now)) }
    ensures spelled { IfOk result (λ command. commands.IsCommand (words tokens.now) command) }
{
    match tokens {
        [] => Ok(Command::Blank),
        [first, behind @ ..] => match &first.what {
            Word::Ident(name) => command_named(alloc, name.as_slice(), behind),
            _ => Ok(Command::Unknown),
        },
    }
}

/// The command of a name and what stands behind it.
fn command_named(alloc: Global, name: &[u8], behind: &[Token]) -> Result<Command, NoMemory>
    ensures { IfOk result (λ command. command ≡ commands.command_named name.now (words behind.now)) }
{
    if behind.is_empty() {
        return Ok(command_alone(name));
    }
    if let Some(text) = text_in(behind) {
        return command_with(alloc, name, text);
    }
    match texts_in(behind) {
        Some((first, second)) => command_with_two(alloc, name, first, second),
        None => Ok(Command::Unknown),
    }
}

/// The command of a name alone.
fn command_alone(name: &[u8]) -> Command
    ensures { result ≡ commands.command_alone name.now }
{
    if is(name, b"halt") {
        Command::Halt
    } else if is(name, b"taskinfo") {
        Command::TaskInfo
    } else if is(name, b"storageinfo") {
        Command::StorageInfo
    } else {
        Command::Unknown
    }
}

/// The command of a name with a text between brackets.
fn command_with(alloc: Global, name: &[u8], text: &[u8]) -> Result<Command, NoMemory>
    ensures { IfOk result (λ command. command ≡ commands.command_with name.now text.now) }
{
    if is(name, b"begin") {
        begin(alloc, text, b"PUBLIC")
    } else if is(name, b"continue") {
        Ok(Command::Continue(Bytes::from(alloc, text)?))
    } else {
        Ok(Command::Unknown)
    }
}

/// The command of a name with two texts between brackets.
fn command_with_two(
    alloc: Global,
    name: &[u8],
    first: &[u8],
    second: &[u8],
) -> Result<Command, NoMemory>
    ensures { IfOk result (λ command. command ≡ commands.command_with_two name.now first.now second.now) }
{
    if is(name, b"begin") {
        begin(alloc, first, second)
    } else {
        Ok(Command::Unknown)
    }
}

fn begin(alloc: Global, name: &[u8], father: &[u8]) -> Result<Command, NoMemory>
    ensures { IfOk result (λ command. command ≡ Command.Begin name.now father.now) }
{
    Ok(Command::Begin {
        name: Bytes::from(alloc, name)?,
        father: Bytes::from(alloc, father)?,
    })
}
