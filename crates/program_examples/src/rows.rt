//! Rows of tables, and what they ask.

use crate::typed::Rests;
use crate::{code, outside, packets};
use eu_base::Bytes;
use std::alloc::Global;

/// What a row asks of its program.
#[derive(Clone, Copy)]
pub enum Asked {
    /// What it writes as a line, for the numbers and words of a row of `outside`.
    Line(&'static str),
    /// The same where the row has these itself.
    Outside,
    /// The listing of its code.
    Listing,
    /// How the listing of a program in cells ends.
    End,
    /// What it shows with the lines that are typed, where it comes to rest so.
    Typed(Rests),
    /// The answers to the steps of a scene with packets, whose programs come to rest so.
    Packets(Rests),
}

/// Adds to an answer. Where memory is refused, the answer is not the one that a row tells, so nothing else has to say it.
pub fn put(out: &mut Bytes, bytes: &[u8]) {
    let _put = out.append(bytes).is_ok();
}

/// Adds a part so often.
pub fn add(out: &mut Bytes, part: &str, times: u32) {
    for _ in 0..times {
        put(out, part.as_bytes());
    }
}

/// What the cells between bars stand for, one behind the other: `399*;` for 399 semicolons.
pub fn spelled(alloc: Global, cells: &str) -> Bytes {
    let mut out = Bytes::new(alloc);
    for cell in cells.split('|') {
        match cell.split_once('*') {
            Some((times, part)) => add(&mut out, part, times.parse().unwrap_or(0)),
            None => add(&mut out, cell, 1),
        }
    }
    out
}

fn copied(alloc: Global, text: &str) -> Bytes {
    let mut out = Bytes::new(alloc);
    put(&mut out, text.as_bytes());
    out
}

fn answer(alloc: Global, out: &mut Bytes, program: &str, row: &str, asked: Asked) {
    match asked {
        Asked::Line(how) => outside::run(alloc, out, how, copied(alloc, program)),
        Asked::Outside => outside::run_row(alloc, out, program),
        Asked::Packets(rests) => packets::answer(alloc, out, row, rests),
        Asked::End => code::answer(alloc, out, spelled(alloc, program).as_slice(), row, asked),
        Asked::Listing | Asked::Typed(_) => {
            code::answer(alloc, out, program.as_bytes(), row, asked);
        }
    }
}

/// Whether each program of a table, which stands behind `> `, has the answer that stands behind it: with the answers to its
/// programs the table is made again.
pub fn is_right(alloc: Global, table: &str, asked: Asked) -> bool {
    let mut out = Bytes::new(alloc);
    for row in table.split("\n> ") {
        let row = row.strip_prefix("> ").unwrap_or(row);
        let (program, _) = row.split_once('\n').unwrap_or((row, ""));
        put(&mut out, b"> ");
        put(&mut out, program.as_bytes());
        put(&mut out, b"\n");
        answer(alloc, &mut out, program, row, asked);
    }
    out.as_slice() == table.as_bytes()
}
