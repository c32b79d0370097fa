//! What lines are at a task and at the supervisor.
use crate::notes::put;
use containers::Bytes;
use elan_lexer::{LexError, tokens};
use elan_tree::Token;
use monitor::{Command, Form, form, supervisor};
use std::alloc::Global;

/// Writes what a line is at the supervisor, or at a task.
pub fn described(alloc: Global, out: &mut Bytes, line: &[u8], at_supervisor: bool) {
    if line.len() > 250 {
        return put(out, b"too long");
    }
    match tokens(alloc, line) {
        Ok(tokens) => {
            put_tokens(alloc, out, tokens.as_slice(), at_supervisor);
            Token::all_let_go(tokens);
        }
        Err(LexError::NoMemory) => put(out, b"no memory"),
        Err(_) => put(out, b"?"),
    }
}

fn put_tokens(alloc: Global, out: &mut Bytes, tokens: &[Token], at_supervisor: bool) {
    if at_supervisor {
        put_command(alloc, out, tokens);
    } else {
        put_form(alloc, out, tokens);
    }
}

fn put_form(alloc: Global, out: &mut Bytes, tokens: &[Token]) {
    match form(alloc, tokens) {
        Ok(Form::Blank) => put(out, b"B"),
        Ok(Form::Enter(name)) => put_named(out, b"E", &name),
        Ok(Form::Run(name)) => put_named(out, b"R", &name),
        Ok(Form::Insert(name)) => put_named(out, b"I", &name),
        Ok(Form::Names) => put(out, b"L"),
        Ok(Form::Program) => put(out, b"P"),
        Err(_) => put(out, b"no memory"),
    }
}

fn put_command(alloc: Global, out: &mut Bytes, tokens: &[Token]) {
    match supervisor(alloc, tokens) {
        Ok(Command::Blank) => put(out, b"B"),
        Ok(Command::Begin { name, father }) => {
            put_named(out, b"A", &name);
            put_named(out, b"/", &father);
        }
        Ok(Command::Continue(name)) => put_named(out, b"C", &name),
        Ok(Command::Halt) => put(out, b"H"),
        Ok(Command::TaskInfo) => put(out, b"T"),
        Ok(Command::StorageInfo) => put(out, b"S"),
        Ok(Command::Unknown) => put(out, b"U"),
        Err(_) => put(out, b"no memory"),
    }
}

fn put_named(out: &mut Bytes, letter: &[u8], name: &Bytes) {
    put(out, letter);
    put(out, name.as_slice());
}
