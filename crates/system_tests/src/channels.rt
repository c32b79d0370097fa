//! Couplings and queues.
use crate::notes::{put, put_task};
use containers::Bytes;
use std::alloc::Global;
use task_numbers::TaskNo;
use terminals::Terminals;

fn put_channel(out: &mut Bytes, channel: Option<u8>) {
    match channel {
        Some(channel) => put_task(out, TaskNo(u32::from(channel))),
        None => put(out, b"-"),
    }
}

// The task of a channel, the channels of two tasks, and who was last at it.
fn put_coupling(out: &mut Bytes, terminals: &Terminals) {
    put_task(out, terminals.task_of(1));
    put_channel(out, terminals.channel_of(TaskNo(7)));
    put_channel(out, terminals.channel_of(TaskNo::NIL));
    put_task(out, terminals.last(1));
}

fn line_in(alloc: Global, out: &mut Bytes, terminals: &mut Terminals, byte: u8) {
    let mut line = Bytes::new(alloc);
    if line.append(&[byte]).is_ok() {
        let taken = terminals.line_in(1, line).is_ok();
        put(out, if taken { b"t" } else { b"f" });
    }
}

fn line_back(out: &mut Bytes, terminals: &mut Terminals) {
    match terminals.line_back(1) {
        Some(line) => put(out, line.as_slice()),
        None => put(out, b"-"),
    }
}

/// A channel has one task and a task one channel. A line is taken at a channel that is coupled, and is gone once it is not.
pub fn coupled(alloc: Global, out: &mut Bytes) {
    if let Ok(mut terminals) = Terminals::new(alloc) {
        terminals.couple(1, TaskNo(7));
        terminals.set_last(1, TaskNo(9));
        put_coupling(out, &terminals);
        line_in(alloc, out, &mut terminals, b'x');
        terminals.uncouple(1);
        put_coupling(out, &terminals);
        line_back(out, &mut terminals);
    }
}

fn lines_in(alloc: Global, out: &mut Bytes, terminals: &mut Terminals, lines: &[u8]) {
    for byte in lines {
        line_in(alloc, out, terminals, *byte);
    }
}

/// Sixteen of seventeen lines wait in order.
pub fn seventeen_lines(alloc: Global, out: &mut Bytes) {
    if let Ok(mut terminals) = Terminals::new(alloc) {
        lines_in(alloc, out, &mut terminals, b"abcdefghijklmnopq");
        for _ in 0..17 {
            line_back(out, &mut terminals);
        }
    }
}
