//! EUMEL over the real disk, source and sink.
#![tactic(auto)]

use edge_real::{FileDisk, StdSink, StdSource};
use eu_base::Bytes;
use eumel_top::eumel;
use std::alloc::Global;
use std::env;
use std::process::ExitCode;

/// The exit code where the arguments cannot be had. No status has it.
const NO_ARGUMENTS: u8 = 10;

fn main(rt: HostRuntime) -> ExitCode {
    let code = match words(&rt) {
        Some(words) => run(&rt, words.as_slice()).unwrap_or(NO_ARGUMENTS),
        None => NO_ARGUMENTS,
    };
    ExitCode::from(code)
}

/// The words behind the program's own, or none where they cannot be had.
fn words(rt: &HostRuntime) -> Option<Vec<String>> {
    let mut words = Vec::new(rt.alloc());
    let mut all = true;
    for word in env::args(rt).ok()?.skip(1) {
        all = words.push(word).is_ok() && all;
    }
    if all { Some(words) } else { None }
}

/// The second word, which names the disk, as bytes; no bytes where there is none.
fn path(alloc: Global, words: &[String]) -> Option<Bytes> {
    match words.get(1) {
        Some(word) => Bytes::from(alloc, word.as_str().as_bytes()).ok(),
        None => Some(Bytes::new(alloc)),
    }
}

/// The exit code of the command, or none where its path cannot be had.
fn run(rt: &HostRuntime, words: &[String]) -> Option<u8> {
    let path = path(rt.alloc(), words)?;
    let mut disk = FileDisk::new(rt, path);
    let mut source = StdSource::new(rt);
    let mut sink = StdSink::new(rt);
    let status = eumel(rt.alloc(), words, &mut disk, &mut source, &mut sink);
    Some(status.code())
}
