//! Standard input, standard output, and a disk in a file.

use crate::calls::answers;
use edge::{Sink, Source};
use edge_real::{FileDisk, StdSink, StdSource};
use eu_base::Bytes;
use std::fs;

fn takes_nothing(rt: &HostRuntime) -> bool {
    let mut source = StdSource::new(rt);
    let mut into = [0u8; 4];
    source.take(&mut into) == Ok(0)
}

fn puts_some(rt: &HostRuntime) -> bool {
    let mut sink = StdSink::new(rt);
    sink.put(b"x").is_ok()
}

// Whether a disk in the file of that path answers so.
fn file_answers(rt: &HostRuntime, path: &[u8], calls: &str) -> bool {
    match Bytes::from(rt.alloc(), path) {
        Ok(path) => answers(&mut FileDisk::new(rt, path), calls),
        Err(_) => false,
    }
}

// Whether a file is that long.
fn is_long(rt: &HostRuntime, path: &str, length: u64) -> bool {
    match fs::metadata(rt, path) {
        Ok(found) => found.len() == length,
        Err(_) => false,
    }
}

fn keeps_blocks(rt: &HostRuntime) -> bool {
    let unwritten = file_answers(rt, b"blocks", "r3=0 s");
    let absent = fs::metadata(rt, "blocks").is_err();
    let written = file_answers(rt, b"blocks", "w3:7 s r3=7");
    let kept = file_answers(rt, b"blocks", "r3=7 r2=0 r255=0");
    let long = is_long(rt, "blocks", 2048);
    let removed = fs::remove_file(rt, "blocks").is_ok();
    unwritten && absent && written && kept && long && removed
}

// A block in which the file ends goes on with zeros.
fn ends_in_a_block(rt: &HostRuntime) -> bool {
    let made = fs::write(rt, "short", "abc").is_ok();
    let right = file_answers(rt, b"short", "r0=97 r1=0 w1:5 r0=97");
    let long = is_long(rt, "short", 1024);
    let removed = fs::remove_file(rt, "short").is_ok();
    made && right && long && removed
}

// What cannot be opened.
fn tells_faults(rt: &HostRuntime) -> bool {
    let folder = file_answers(rt, b".", "r0=! w0:1=!");
    let absent = file_answers(rt, b"none/blocks", "r0=0 w0:1=!");
    folder && absent && file_answers(rt, b"\xff", "r0=! w0:1=!")
}

#[test]
fn standard_input_is_at_its_end_and_standard_output_takes_some(rt: HostRuntime) {
    let input = takes_nothing(&rt);
    let output = puts_some(&rt);
    assert!(rt; input && output);
}

#[test]
fn a_file_keeps_blocks(rt: HostRuntime) {
    let (kept, ended, told) = (keeps_blocks(&rt), ends_in_a_block(&rt), tells_faults(&rt));
    assert!(rt; kept && ended && told);
}
