//! Sources and sinks in memory: which bytes move, and which call fails.

use edge::{MemSink, MemSource, Sink, Source};
use eu_base::{Bytes, List};
use std::alloc::Global;

// The second call fails.
fn fails(alloc: Global) -> List<u32> {
    let mut fails = List::new(alloc);
    let _listed = fails.push(2u32).is_ok();
    fails
}

// Where memory is refused, the bytes are not those that are told.
fn add(out: &mut Bytes, byte: u8) {
    let _added = out.append(&[byte]).is_ok();
}

// Four calls that ask for four bytes each: how many come, 9 for a call that fails, and the first byte that stands there afterwards.
fn take(source: &mut MemSource, out: &mut Bytes) {
    for _ in 0..4 {
        let mut into = [0; 4];
        let count = source.take(&mut into).unwrap_or(9);
        add(out, (count % 256) as u8);
        add(out, into[0]);
    }
}

/// Whether a source gives pieces, and fails where listed.
pub fn source_is_right(alloc: Global) -> bool {
    let mut bytes = Bytes::new(alloc);
    let made = bytes.append(b"abc").is_ok();
    let mut source = MemSource::new(bytes, 2, fails(alloc));
    let mut out = Bytes::new(alloc);
    take(&mut source, &mut out);
    made && out.as_slice() == b"\x02a\x09\x00\x01c\x00\x00".as_slice()
}

/// Whether a sink takes pieces, and fails where listed.
pub fn sink_is_right(alloc: Global) -> bool {
    let mut sink = MemSink::new(alloc, 2, fails(alloc));
    let first = sink.put(b"abc") == Ok(2);
    let failed = sink.put(b"c").is_err();
    let last = sink.put(b"c") == Ok(1);
    first && failed && last && sink.bytes() == b"abc".as_slice() && !sink.wanted()
}
