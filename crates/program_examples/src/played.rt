//! Sessions over objects in memory.

use crate::outside::{add_word, fails, number, run_words};
use crate::rows::put;
use edge::{MemSink, MemSource};
use eu_base::Bytes;
use eumel_top::{Ending, run_play};
use std::alloc::Global;

// A session in the plain form, which no command runs yet.
fn run_plain(alloc: Global, source: &mut MemSource, sink: &mut MemSink) -> &'static [u8] {
    match run_play(alloc, true, source, sink) {
        Ok(Ending::ByShut) | Ok(Ending::AtEnd) => b"",
        Ok(Ending::BadLine(3)) => b"!BadLine(3)\n",
        _ => b"?\n",
    }
}

// Adds what is shown in a session with this input, and how it ends: `how` has the numbers and the words of the row.
fn run(alloc: Global, out: &mut Bytes, how: &str, input: Bytes) {
    let mut parts = how.split(' ');
    let piece = number(parts.next()).max(1);
    let source_fails = fails(alloc, number(parts.next()));
    let sink_fails = fails(alloc, number(parts.next()));
    let mut source = MemSource::new(input, piece as usize, source_fails);
    let mut sink = MemSink::new(alloc, 1, sink_fails);
    let end = if how.ends_with(" 0 plain") {
        run_plain(alloc, &mut source, &mut sink)
    } else {
        let mut words = Vec::new(alloc);
        for word in parts {
            add_word(alloc, &mut words, word);
        }
        run_words(alloc, words.as_slice(), &mut source, &mut sink)
    };
    put(out, sink.bytes());
    put(out, end);
}

// The lines that are typed in a session. They are added to the table as they stand.
fn input_of(alloc: Global, out: &mut Bytes, row: &str) -> Bytes {
    let mut input = Bytes::new(alloc);
    for line in row.split('\n') {
        let whole = line.strip_prefix("> ");
        let text = whole.or(line.strip_prefix("< "));
        if let Some(text) = text {
            put(out, line.as_bytes());
            put(out, b"\n");
            put(&mut input, text.as_bytes());
        }
        if whole.is_some() {
            put(&mut input, b"\n");
        }
    }
    input
}

/// Whether each session of a table, which stands behind `# `, shows what stands behind it: with what its sessions show the table is
/// made again.
pub fn shows(alloc: Global, table: &str) -> bool {
    let mut out = Bytes::new(alloc);
    for row in table.split("\n# ") {
        let row = row.strip_prefix("# ").unwrap_or(row);
        let (how, rest) = row.split_once('\n').unwrap_or((row, ""));
        put(&mut out, b"# ");
        put(&mut out, how.as_bytes());
        put(&mut out, b"\n");
        let input = input_of(alloc, &mut out, rest);
        run(alloc, &mut out, how, input);
    }
    out.as_slice() == table.as_bytes()
}
