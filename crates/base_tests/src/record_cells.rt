//! The bytes for which cells stand.
//!
//! `1:9`, `2:9`, `4:9` and `8:9` are the number 9 in so many bytes, `b:ab` a text behind its count, and `l:9` one of 9 letters. `n:9` are
//! 9 empty texts, `q:9` the numbers 1 to 9, `p:9` 9 packets, `s:9` 9 data spaces, each behind their count; `c:9` is a structure of 9 cells,
//! and `r:9` are 9 rows in one another, with a cell in the last. `t` is a task up to what it does, and `e` where a command stands, behind
//! what it waits for.

use eu_base::Bytes;
use std::alloc::Global;

// Adds bytes. Where memory is refused the row is not right, so nothing else has to say it.
fn put(out: &mut Bytes, bytes: &[u8]) {
    let _put = out.append(bytes).is_ok();
}

fn put_number(out: &mut Bytes, number: u32) {
    put(out, number.to_le_bytes().as_slice());
}

fn put_text(out: &mut Bytes, text: &str) {
    put_number(out, (text.len() % 65_536) as u32);
    put(out, text.as_bytes());
}

fn put_letters(out: &mut Bytes, count: u32) {
    put_number(out, count);
    for _ in 0..count {
        put(out, b"a");
    }
}

fn put_empty_texts(out: &mut Bytes, count: u32) {
    put_number(out, count);
    for _ in 0..count {
        put_number(out, 0);
    }
}

fn put_numbers(out: &mut Bytes, count: u32) {
    put_number(out, count);
    for number in 0..count {
        put_number(out, number.wrapping_add(1));
    }
}

fn put_packets(out: &mut Bytes, count: u32) {
    put_number(out, count);
    for number in 0..count {
        put_number(out, number.wrapping_add(1));
        put_number(out, 0);
    }
}

fn put_spaces(out: &mut Bytes, count: u32) {
    put_number(out, count);
    for number in 0..count {
        put_number(out, number.wrapping_add(1));
        put(out, &[0, 0, 0]);
        put_number(out, 0);
    }
}

fn put_structure(out: &mut Bytes, count: u32) {
    put(out, &[2]);
    put_number(out, count);
    for _ in 0..count {
        put(out, &[0, 0]);
    }
}

fn put_rows(out: &mut Bytes, count: u32) {
    for _ in 0..count {
        put(out, &[1, 1, 0]);
    }
    put(out, &[0, 0]);
}

fn put_task(out: &mut Bytes) {
    put_number(out, 1);
    put_text(out, "a");
    for number in [0, 0, 0, 1, 0, 0, 0, 0, 0u32] {
        put_number(out, number);
    }
}

fn put_end(out: &mut Bytes) {
    put_number(out, 5);
    put(out, &[3, 0]);
    put_number(out, 0);
    put_number(out, 0);
}

fn put_cell(out: &mut Bytes, cell: &str) {
    let (kind, argument) = cell.split_once(':').unwrap_or((cell, ""));
    let number: u32 = argument.parse().unwrap_or(0);
    let bytes = number.to_le_bytes();
    match kind {
        "1" => put(out, &[bytes[0]]),
        "2" => put(out, &[bytes[0], bytes[1]]),
        "4" => put(out, bytes.as_slice()),
        "8" => {
            put(out, bytes.as_slice());
            put(out, &[0, 0, 0, 0]);
        }
        "b" => put_text(out, argument),
        "l" => put_letters(out, number),
        "n" => put_empty_texts(out, number),
        "q" => put_numbers(out, number),
        "p" => put_packets(out, number),
        "s" => put_spaces(out, number),
        "c" => put_structure(out, number),
        "r" => put_rows(out, number),
        "t" => put_task(out),
        "e" => put_end(out),
        _ => (),
    }
}

/// The bytes for which a row of cells stands.
pub fn bytes(alloc: Global, row: &str) -> Bytes {
    let mut out = Bytes::new(alloc);
    for cell in row.split_whitespace() {
        put_cell(&mut out, cell);
    }
    out
}
