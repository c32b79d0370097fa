//! Lines as events, and pieces as lines.
use crate::notes::put;
use containers::Bytes;
use session_text::{Event, LineError, event, piece};
use std::alloc::Global;

/// Writes the events of a line; `bad` for a line of no form.
pub fn events(alloc: Global, out: &mut Bytes, line: &[u8], plain: bool) {
    match event(alloc, line, plain) {
        Ok(events) => put_events(out, events.as_slice()),
        Err(LineError::BadLine) => put(out, b"bad"),
        Err(LineError::NoMemory) => put(out, b"no memory"),
    }
}

/// The letter of an event, and the number that belongs to it.
fn letter(event: &Event) -> [u8; 3] {
    match event {
        Event::Line { channel, .. } => [b'L', 0, *channel],
        Event::Supervisor(channel) => [b'S', 0, *channel],
        Event::Turns(count) => [b'T', (*count / 256) as u8, (*count % 256) as u8],
        Event::Fixpoint => [b'F', 0, 0],
        Event::Shut => [b'E', 0, 0],
    }
}

// Writes an event: a letter, two bytes of a number and a text.
fn put_event(out: &mut Bytes, event: &Event) {
    put(out, &letter(event));
    if let Event::Line { text, .. } = event {
        put(out, text.as_slice());
    }
}

fn put_events(out: &mut Bytes, events: &[Event]) {
    for event in events {
        put_event(out, event);
    }
}

/// Pieces of output.
pub fn pieces(alloc: Global, out: &mut Bytes) {
    let _put = piece(alloc, 1, b"8 ", false, false, out).is_ok();
    let _put = piece(alloc, 2, b"", true, false, out).is_ok();
    let _put = piece(alloc, 2, b"", false, false, out).is_ok();
    let _put = piece(alloc, 4, b"a\rb\x7f", true, false, out).is_ok();
    let _put = piece(alloc, 1, b"x", true, true, out).is_ok();
    let _put = piece(alloc, 3, b"y", true, true, out).is_ok();
}
