//! Rows of which parts of a system of tasks are rebuilt, each with what becomes of them.
mod channels;
mod ready;
mod tree;
mod waits;
mod words;

use std::alloc::Global;

/// The part that is rebuilt.
#[derive(Clone, Copy)]
enum Part {
    Ready,
    Tree,
    Waits,
    Channels,
}

fn read(alloc: Global, line: &str, part: Part) -> &'static str {
    match part {
        Part::Ready => ready::read(alloc, line),
        Part::Tree => tree::read(alloc, line),
        Part::Waits => waits::read(alloc, line),
        Part::Channels => channels::read(alloc, line),
    }
}

// How many rows of a table are right, before the first that is not.
fn right_rows(alloc: Global, table: &str, part: Part) -> usize {
    let mut rows = 0usize;
    for row in table.lines() {
        let (line, told) = row.split_once(" => ").unwrap_or((row, ""));
        if read(alloc, line, part) != told {
            return rows;
        }
        rows = rows.saturating_add(1);
    }
    rows
}

// Each task once, at most 16.
const READY: &str = " => same
3 5 4 => same
1 2 3 4 5 6 7 8 9 10 11 12 13 14 15 16 => same
1 2 3 4 5 6 7 8 9 10 11 12 13 14 15 16 17 => no
3 5 3 => no
3 3 => no";

// Behind the last number that was given: number, name, father, sons. `~` is fifty bytes, `_` none.
const TREE: &str = "2: 1 UR 0 2/2 PUBLIC 1 => same
1: 1 UR 0 => same
9: 1 UR 0 2 7/2 PUBLIC 1 5 6/5 a 2 9/6 b 2/7 c 1/9 d 5 => same
4294967295: 1 UR 0 4294967295/4294967295 a 1 => same
2: 1 UR 0 2/2 ~0123456789 1 => same
2:  => no
1: 1 UR 0 2/2 PUBLIC 1 => no
2: 1 UR 0 2/2 UR 1 => no
2: 1 UR 0 2/2 _ 1 => no
2: 1 UR 0 2/2 ~01234567890 1 => no
2: 1 UR 0/2 PUBLIC 0 => no
2: 1 UR 2 2/2 PUBLIC 1 1 => no
2: 2 UR 0 => no
2: 2 UR 0/1 PUBLIC 2 => no
2: 1 UR 0 1/1 a 1 => no
3: 1 UR 0 2 3/3 a 1/2 b 1 => no
3: 1 UR 0 2/2 PUBLIC 1/3 a 4 => no
3: 1 UR 0/2 PUBLIC 3 3/3 a 2 2 => no
3: 1 UR 0 2/2 PUBLIC 1 3/3 a 3 => no
2: 0 UR 0 => no
2: 1 UR 0/2 PUBLIC 1 => no
3: 1 UR 0 3 2/2 PUBLIC 1/3 a 1 => no
3: 1 UR 0 2 3/2 PUBLIC 1/3 a 2 => no
16: 1 UR 0 2 3 4 5 6 7 8 9 10 11 12 13 14 15 16/2 b 1/3 c 1/4 d 1/5 e 1/6 f 1/7 g 1/8 h 1/9 i 1/10 j 1/11 k 1/12 l 1/13 m 1/14 n 1/15 o 1/16 p 1 => same
17: 1 UR 0 2 3 4 5 6 7 8 9 10 11 12 13 14 15 16 17/2 b 1/3 c 1/4 d 1/5 e 1/6 f 1/7 g 1/8 h 1/9 i 1/10 j 1/11 k 1/12 l 1/13 m 1/14 n 1/15 o 1/16 p 1/17 q 1 => no";

// Callers in order of arrival, and receivers by number.
const WAITS: &str = " => same
3>5 4>5 2>3 => same
6? 7?3 => same
9>5 3>5 6? 7?3 => same
1>9 2>9 3>9 4>9 5>9 6>9 7>9 8>9 9>1 10? 11? 12? 13? 14? 15? 16?1 => same
1>9 2>9 3>9 4>9 5>9 6>9 7>9 8>9 9>1 10? 11? 12? 13? 14? 15? 16?1 17? => no
3>5 3>6 => no
3>5 3? => no
6? 6?3 => no
7?3 6? => no";

// For each channel its task, its last task, and its lines.
const CHANNELS: &str = "0 0/0 0/0 0/0 0 => same
3 4 a bc _/5 5/0 9/2 0 ~~~~~ => same
3 0 a b c d e f g h i j k l m n o p/0 0/0 0/0 0 => same
3 0 a b c d e f g h i j k l m n o p q/0 0/0 0/0 0 => no
3 0/0 0/0 0/3 0 => no
0 0/0 0/5 0/5 0 => no
0 0/0 0/0 0/0 0 ~~~~~a => no
0 0/0 0/0 0 => no
0 0/0 0/0 0/0 0/0 0 => no";

/// The first table of which not all rows are right, or the first scene after which a part does not come back.
pub fn wrong(alloc: Global) -> &'static str {
    if right_rows(alloc, READY, Part::Ready) != 6 {
        "ready"
    } else if right_rows(alloc, TREE, Part::Tree) != 25 {
        "tree"
    } else if right_rows(alloc, WAITS, Part::Waits) != 10 {
        "waits"
    } else if right_rows(alloc, CHANNELS, Part::Channels) != 9 {
        "channels"
    } else if ready::scene(alloc) != "same" {
        "the ready list does not come back"
    } else if tree::scene(alloc) != "same" {
        "the tree does not come back"
    } else if waits::scene(alloc) != "same" {
        "those that wait do not come back"
    } else if channels::scene(alloc) != "same" {
        "the channels do not come back"
    } else {
        ""
    }
}
