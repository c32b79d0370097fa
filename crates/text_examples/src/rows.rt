//! Rows of tables, and what they say.

use crate::answers::{Asked, answer, put};
use std::alloc::Global;

/// What a row says. Cells stand between bars: the text is what they stand for, one behind the other. `8000*;` stands for
/// 8,000 semicolons, `*(` for as many brackets as the text is deep, and `-*(` for one less.
#[derive(Clone, Copy)]
pub enum Says {
    /// The answer behind an arrow.
    Answer,
    /// That a text has a tree.
    Tree,
    /// That it has none.
    NoTree,
    /// That it is refused where a mark `^` stands.
    Mark,
    /// The answer behind the last bar; before it stand cells.
    Cells,
    /// That a text in cells has a tree where it is 400 deep, and none where it is deeper.
    Depth,
}

fn number(text: &str) -> usize {
    text.parse().unwrap_or(0)
}

fn is_told(alloc: Global, text: &str, asked: Asked, told: &str) -> bool {
    answer(alloc, text, asked).as_str() == told
}

// Where a text is refused; 0 where it has a tree.
fn place(alloc: Global, text: &str, asked: Asked) -> usize {
    number(answer(alloc, text, asked).as_str())
}

fn times(front: &str, depth: usize) -> usize {
    match front {
        "" => depth,
        "-" => depth.saturating_sub(1),
        _ => number(front),
    }
}

fn add(text: &mut String, part: &str, times: usize) {
    for _ in 0..times {
        put(text, part);
    }
}

fn add_cell(text: &mut String, cell: &str, depth: usize) {
    match cell.split_once('*') {
        Some((front, part)) => add(text, part, times(front, depth)),
        None => put(text, cell),
    }
}

// What cells stand for.
fn spelled(alloc: Global, cells: &str, depth: usize) -> String {
    let mut text = String::new(alloc);
    for cell in cells.split('|') {
        add_cell(&mut text, cell, depth);
    }
    text
}

fn has_answer(alloc: Global, row: &str, asked: Asked) -> bool {
    let row = row.strip_prefix('\n').unwrap_or(row);
    let (text, told) = row.split_once(" => ").unwrap_or((row, ""));
    is_told(alloc, text, asked, told)
}

fn is_marked(alloc: Global, row: &str, asked: Asked) -> bool {
    let (before, behind) = row.split_once('^').unwrap_or((row, ""));
    let mut text = String::new(alloc);
    put(&mut text, before);
    put(&mut text, behind);
    place(alloc, text.as_str(), asked) == before.len().saturating_add(1)
}

fn has_cells(alloc: Global, row: &str, asked: Asked) -> bool {
    let (cells, told) = row.rsplit_once('|').unwrap_or((row, ""));
    is_told(alloc, spelled(alloc, cells, 0).as_str(), asked, told)
}

fn has_tree(alloc: Global, cells: &str, depth: usize, asked: Asked) -> bool {
    is_told(alloc, spelled(alloc, cells, depth).as_str(), asked, "tree")
}

fn is_deep(alloc: Global, cells: &str, asked: Asked) -> bool {
    let below = has_tree(alloc, cells, 399, asked) && has_tree(alloc, cells, 400, asked);
    below && place(alloc, spelled(alloc, cells, 401).as_str(), asked) > 0
}

fn is_right(alloc: Global, row: &str, says: Says, asked: Asked) -> bool {
    match says {
        Says::Answer => has_answer(alloc, row, asked),
        Says::Tree => is_told(alloc, row, asked, "tree"),
        Says::NoTree => place(alloc, row, asked) > 0,
        Says::Mark => is_marked(alloc, row, asked),
        Says::Cells => has_cells(alloc, row, asked),
        Says::Depth => is_deep(alloc, row, asked),
    }
}

/// How many rows are as they say, before the first that is not.
pub fn right_rows(alloc: Global, rows: &str, says: Says, asked: Asked) -> usize {
    let end = if matches!(asked, Asked::Tokens) {
        '|'
    } else {
        '\n'
    };
    let mut count = 0usize;
    for row in rows.split(end) {
        if !is_right(alloc, row, says, asked) {
            return count;
        }
        count = count.saturating_add(1);
    }
    count
}
