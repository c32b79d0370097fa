//! Lines over objects that may fail.

use crate::rows::put;
use edge::{MemDisk, MemSink, MemSource};
use eu_base::{Bytes, List};
use eumel_top::{Status, eumel};
use std::alloc::Global;

/// How many bytes the source gives at most in one call; which call of the source fails, and which of the sink, counted from 1 (0
/// for none); the words; and behind bars the lines of the input. A status other than Done stands behind what is written: a line
/// that ends or does not, and words that name a command or none; then one line, whose second is not run, over a source that fails
/// at each call, of which there are 16, and over a sink, of which there are 3.
pub const OUTSIDE: &str = "\
> 7 0 0 line|put (1 + 2 * 3)|
7 
> 7 0 0 line|put (32767 + 1)|put (1)
FEHLER : INT-Ueberlauf
> 7 0 0 line|
FEHLER : kein ELAN-Text (Zeile 1, Stelle 1)
> 7 0 0 line||put (1)|
FEHLER : kein ELAN-Text (Zeile 1, Stelle 1)
> 7 0 0 line|put (                                                                                                                                                                                                                                                    1)
! Zeile 1
!BadLine(1)
> 7 0 0|put (1)
!BadWords
> 7 0 0 line x|put (1)
!BadWords
> 7 0 0 drill 007|put (1)
!BadWords
> 1 1 0 line|put (1 + 2 * 3)|put (4)
!SourceFault
> 1 2 0 line|put (1 + 2 * 3)|put (4)
!SourceFault
> 1 3 0 line|put (1 + 2 * 3)|put (4)
!SourceFault
> 1 4 0 line|put (1 + 2 * 3)|put (4)
!SourceFault
> 1 5 0 line|put (1 + 2 * 3)|put (4)
!SourceFault
> 1 6 0 line|put (1 + 2 * 3)|put (4)
!SourceFault
> 1 7 0 line|put (1 + 2 * 3)|put (4)
!SourceFault
> 1 8 0 line|put (1 + 2 * 3)|put (4)
!SourceFault
> 1 9 0 line|put (1 + 2 * 3)|put (4)
!SourceFault
> 1 10 0 line|put (1 + 2 * 3)|put (4)
!SourceFault
> 1 11 0 line|put (1 + 2 * 3)|put (4)
!SourceFault
> 1 12 0 line|put (1 + 2 * 3)|put (4)
!SourceFault
> 1 13 0 line|put (1 + 2 * 3)|put (4)
!SourceFault
> 1 14 0 line|put (1 + 2 * 3)|put (4)
!SourceFault
> 1 15 0 line|put (1 + 2 * 3)|put (4)
!SourceFault
> 1 16 0 line|put (1 + 2 * 3)|put (4)
!SourceFault
> 1 17 0 line|put (1 + 2 * 3)|put (4)
7 
> 64 0 1 line|put (1 + 2 * 3)|put (4)
!SinkFault
> 64 0 2 line|put (1 + 2 * 3)|put (4)
7!SinkFault
> 64 0 3 line|put (1 + 2 * 3)|put (4)
7 !SinkFault
> 64 0 4 line|put (1 + 2 * 3)|put (4)
7 
> 64 0 5 line|put (1 + 2 * 3)|put (4)
7 
> 64 0 6 line|put (1 + 2 * 3)|put (4)
7 
> 64 0 7 line|put (1 + 2 * 3)|put (4)
7 
> 64 0 8 line|put (1 + 2 * 3)|put (4)
7 
> 64 0 9 line|put (1 + 2 * 3)|put (4)
7 
> 64 0 10 line|put (1 + 2 * 3)|put (4)
7 
> 64 0 11 line|put (1 + 2 * 3)|put (4)
7 
> 64 0 12 line|put (1 + 2 * 3)|put (4)
7 
> 64 0 13 line|put (1 + 2 * 3)|put (4)
7 
> 64 0 14 line|put (1 + 2 * 3)|put (4)
7 
> 64 0 15 line|put (1 + 2 * 3)|put (4)
7 
> 64 0 16 line|put (1 + 2 * 3)|put (4)
7 
> 64 0 17 line|put (1 + 2 * 3)|put (4)
7 
";

/// A number of a row; 0 where none stands there.
pub fn number(text: Option<&str>) -> u32 {
    text.unwrap_or("").parse().unwrap_or(0)
}

/// The one call that fails.
pub fn fails(alloc: Global, call: u32) -> List<u32> {
    let mut calls = List::new(alloc);
    let _put = calls.push(call).is_ok();
    calls
}

/// Adds a word of a row.
pub fn add_word(alloc: Global, words: &mut Vec<String>, word: &str) {
    if let Ok(word) = String::from_str(alloc, word) {
        let _put = words.push(word).is_ok();
    }
}

fn told(status: Status) -> &'static [u8] {
    match status {
        Status::Done => b"",
        Status::BadWords => b"!BadWords\n",
        Status::SourceFault => b"!SourceFault\n",
        Status::SinkFault => b"!SinkFault\n",
        Status::BadLine(1) => b"!BadLine(1)\n",
        Status::BadLine(2) => b"!BadLine(2)\n",
        Status::BadLine(3) => b"!BadLine(3)\n",
        _ => b"?\n",
    }
}

/// What the words ask for is done; how it ends.
pub fn run_words(
    alloc: Global,
    words: &[String],
    source: &mut MemSource,
    sink: &mut MemSink,
) -> &'static [u8] {
    let mut disk = MemDisk::new(alloc, List::new(alloc));
    told(eumel(alloc, words, &mut disk, source, sink))
}

/// Adds what is written for this input, and how that ends: `how` has the numbers and the words of a row.
pub fn run(alloc: Global, out: &mut Bytes, how: &str, input: Bytes) {
    let mut parts = how.split(' ');
    let piece = number(parts.next()).max(1);
    let source_fails = fails(alloc, number(parts.next()));
    let sink_fails = fails(alloc, number(parts.next()));
    let mut source = MemSource::new(input, piece as usize, source_fails);
    let mut sink = MemSink::new(alloc, 1, sink_fails);
    let mut words = Vec::new(alloc);
    for word in parts {
        add_word(alloc, &mut words, word);
    }
    let end = run_words(alloc, words.as_slice(), &mut source, &mut sink);
    put(out, sink.bytes());
    put(out, end);
}

/// The same where the words stand before the first bar of a row, and each later bar is a line end.
pub fn run_row(alloc: Global, out: &mut Bytes, row: &str) {
    let (how, lines) = row.split_once('|').unwrap_or((row, ""));
    let mut input = Bytes::new(alloc);
    for byte in lines.bytes() {
        put(&mut input, &[if byte == b'|' { b'\n' } else { byte }]);
    }
    run(alloc, out, how, input);
}
