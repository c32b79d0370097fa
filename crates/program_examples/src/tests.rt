//! The first table that is not right.

use crate::played::shows;
use crate::rows::{Asked, add, is_right, put};
use crate::typed::Rests;
use crate::{
    code, endings, lets, lines, meanings, messages, outside, packets, revived, row_sizes,
    row_values, sessions, spaces, structures, table, tasks, texts, typed, types,
};
use eu_base::Bytes;
use eumel_top::{Status, one_output};
use std::alloc::Global;

// An endless loop writes until its marks are spent.
fn writes_until_spent(alloc: Global) -> bool {
    let mut row = Bytes::new(alloc);
    put(&mut row, b"> REP put (1) PER\n");
    add(&mut row, "1 ", 33_333);
    put(&mut row, b"\nFEHLER : Zeitgrenze\n");
    let row = str::from_utf8(row.as_slice()).unwrap_or("");
    is_right(alloc, row, Asked::Line("64 0 0 line"))
}

fn codes_are_right() -> bool {
    Status::Done.code() == 0
        && Status::BadWords.code() == 1
        && Status::NoMemory.code() == 2
        && Status::SourceFault.code() == 3
        && Status::SinkFault.code() == 4
        && Status::DiskFault.code() == 5
        && Status::Foreign.code() == 6
        && Status::BadLine(9).code() == 7
        && Status::SessionFull.code() == 8
}

// The first table of lines that is not right.
fn wrong_lines(alloc: Global) -> &'static str {
    let how = Asked::Line("64 0 0 line");
    if !is_right(alloc, lines::LINES, how) {
        "lines"
    } else if !is_right(alloc, lines::LINES, Asked::Line("1 0 0 line")) {
        "lines in pieces of a byte"
    } else if !is_right(alloc, lines::LINES, Asked::Line("7 0 0 line")) {
        "lines in pieces of 7"
    } else if !is_right(alloc, lines::LINES, Asked::Line("1000 0 0 line")) {
        "lines in one piece"
    } else if !is_right(alloc, outside::OUTSIDE, Asked::Outside) {
        "outside"
    } else if !is_right(alloc, lines::PROCEDURES, how) {
        "procedures"
    } else if !is_right(alloc, meanings::MEANINGS, how) {
        "meanings"
    } else if !is_right(alloc, texts::TEXTS, how) {
        "texts"
    } else if !is_right(alloc, lets::LETS, how) {
        "lets"
    } else if !is_right(alloc, types::TYPES, how) {
        "types"
    } else if !is_right(alloc, row_values::ROWS, how) {
        "rows"
    } else if !is_right(alloc, row_sizes::SIZES, how) {
        "sizes of rows"
    } else if !is_right(alloc, structures::STRUCTURES, how) {
        "structures"
    } else if !is_right(alloc, tasks::TASKS, how) {
        "tasks"
    } else if !is_right(alloc, spaces::SPACES, how) {
        "data spaces"
    } else if !is_right(alloc, spaces::SPACE_STOPS, how) {
        "stops of data spaces"
    } else if !is_right(alloc, table::EXAMPLES, how) {
        "examples"
    } else {
        ""
    }
}

// The first table of sessions that is not right.
fn wrong_sessions(alloc: Global) -> &'static str {
    if !shows(alloc, sessions::ROWS) {
        "rows of sessions"
    } else if !shows(alloc, sessions::SUPERVISOR) {
        "supervisor"
    } else if !shows(alloc, sessions::QUEUES) {
        "queues"
    } else if !shows(alloc, messages::MESSAGES) {
        "messages"
    } else if !shows(alloc, messages::RENDEZVOUS) {
        "rendezvous"
    } else if !shows(alloc, messages::LESSONS) {
        "lessons"
    } else if !shows(alloc, endings::ENDS) {
        "ends"
    } else if !shows(alloc, endings::STOPS) {
        "stops"
    } else if !shows(alloc, endings::PACKETS) {
        "packets in sessions"
    } else if !shows(alloc, endings::FORMS) {
        "forms"
    } else if !shows(alloc, endings::PLAIN) {
        "plain"
    } else if !shows(alloc, endings::FAULTS) {
        "faults"
    } else {
        ""
    }
}

// The first table that is not right where each command is revived at each of its rests.
fn wrong_revival(alloc: Global) -> &'static str {
    if !is_right(alloc, revived::STATES, Asked::Typed(Rests::Seldom)) {
        "states"
    } else if !is_right(alloc, revived::STATES, Asked::Typed(Rests::Revived)) {
        "states, revived"
    } else if !is_right(alloc, typed::TYPED, Asked::Typed(Rests::Revived)) {
        "typed, revived"
    } else if !is_right(alloc, tasks::ANSWERED, Asked::Typed(Rests::Revived)) {
        "answers on tasks, revived"
    } else if !is_right(alloc, packets::SCENES, Asked::Packets(Rests::Revived)) {
        "packets, revived"
    } else if !is_right(alloc, revived::CRAFTED, Asked::Typed(Rests::Crafted)) {
        "crafted"
    } else {
        ""
    }
}

fn wrong_table(alloc: Global) -> &'static str {
    let lines = wrong_lines(alloc);
    let sessions = wrong_sessions(alloc);
    let revival = wrong_revival(alloc);
    if !lines.is_empty() {
        lines
    } else if !sessions.is_empty() {
        sessions
    } else if !revival.is_empty() {
        revival
    } else if !writes_until_spent(alloc) {
        "endless"
    } else if !is_right(alloc, lines::LISTINGS, Asked::Listing) {
        "listings"
    } else if !is_right(alloc, code::DEEP, Asked::End) {
        "deep"
    } else if !is_right(alloc, typed::TYPED, Asked::Typed(Rests::Seldom)) {
        "typed"
    } else if !is_right(alloc, typed::TYPED, Asked::Typed(Rests::Often)) {
        "typed, a mark at a time"
    } else if !is_right(alloc, tasks::ANSWERED, Asked::Typed(Rests::Seldom)) {
        "answers on tasks"
    } else if !is_right(alloc, packets::SCENES, Asked::Packets(Rests::Seldom)) {
        "packets"
    } else if !codes_are_right() {
        "codes"
    } else {
        ""
    }
}

#[test]
fn each_row_is_right(rt: HostRuntime) {
    one_output();
    assert_eq!(rt; wrong_table(rt.alloc()), "");
}
