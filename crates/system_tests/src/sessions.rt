//! Lines that are read from a source of small pieces, which fails at one call.
use crate::notes::put;
use containers::{Bytes, List, NoMemory};
use edge::MemSource;
use session_lines::{LineReader, Next};
use std::alloc::Global;

// A list of one call that fails; the calls are numbered from 1, so 0 is none of them.
fn fails(alloc: Global, digit: u8) -> List<u32> {
    let mut fails = List::new(alloc);
    let _listed = fails.push(u32::from(digit.wrapping_sub(b'0'))).is_ok();
    fails
}

fn put_next(out: &mut Bytes, next: Result<Next, NoMemory>) {
    match next {
        Ok(Next::Line(text)) => {
            put(out, text.as_slice());
            put(out, b"\n");
        }
        Ok(Next::TooLong) => put(out, b">"),
        Ok(Next::End) => put(out, b"."),
        Ok(Next::Fault) => put(out, b"!"),
        Err(_) => put(out, b"no memory"),
    }
}

// A source. Before the blank stand how many bytes it gives in one call, and which call of it fails, and behind it stands what it has.
fn source(alloc: Global, row: &[u8]) -> Option<MemSource> {
    let [piece, failing, b' ', input @ ..] = row else {
        return None
    };
    let mut bytes = Bytes::new(alloc);
    put(&mut bytes, input);
    let piece = usize::from(piece.wrapping_sub(b'0')).max(1);
    Some(MemSource::new(bytes, piece, fails(alloc, *failing)))
}

/// Writes six answers of a reader of lines, one after another.
pub fn answers(alloc: Global, out: &mut Bytes, row: &[u8]) {
    let Some(mut source) = source(alloc, row) else {
        return
    };
    let mut reader = LineReader::new();
    for _ in 0..6 {
        put_next(out, reader.next_line(alloc, &mut source));
    }
}
