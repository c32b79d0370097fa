//! The tree of tasks.
use crate::rows::words::{number, spelled, task, told};
use containers::{List, NoMemory};
use eu_base::ReviveError;
use std::alloc::Global;
use task_numbers::TaskNo;
use task_tree::{TaskTree, TreeRow};

// A row: its number, name and father, and then its sons.
fn row_of(alloc: Global, text: &str) -> Result<TreeRow, NoMemory> {
    let mut row = TreeRow {
        number: TaskNo::NIL,
        name: spelled(alloc, "")?,
        father: TaskNo::NIL,
        sons: List::new(alloc),
    };
    for (place, word) in text.split(' ').enumerate() {
        match place {
            0 => row.number = task(word),
            1 => row.name = spelled(alloc, word)?,
            2 => row.father = task(word),
            _ => row.sons.push(task(word))?,
        }
    }
    Ok(row)
}

fn rows_of(alloc: Global, line: &str) -> Result<List<TreeRow>, NoMemory> {
    let mut rows = List::new(alloc);
    for text in line.split('/') {
        if !text.is_empty() {
            rows.push(row_of(alloc, text)?)?;
        }
    }
    Ok(rows)
}

fn is_row(row: &TreeRow, other: &TreeRow) -> bool {
    row.number == other.number
        && row.name.as_slice() == other.name.as_slice()
        && row.father == other.father
        && row.sons.as_slice() == other.sons.as_slice()
}

// Whether a tree has these rows and no other.
fn has_rows(alloc: Global, tree: &TaskTree, last: u32, rows: &[TreeRow]) -> bool {
    let Ok(found) = tree.rows(alloc) else {
        return false;
    };
    if found.len() != rows.len() || tree.last_number() != last {
        return false;
    }
    for (row, other) in found.as_slice().iter().zip(rows) {
        if !is_row(row, other) {
            return false;
        }
    }
    true
}

fn comes_back(alloc: Global, last: u32, rows: &[TreeRow]) -> &'static str {
    match TaskTree::of(alloc, last, rows) {
        Ok(made) => {
            if has_rows(alloc, &made, last, rows) {
                "same"
            } else {
                "other"
            }
        }
        Err(cause) => told(cause),
    }
}

/// What becomes of a last number and the rows of a line.
pub fn read(alloc: Global, line: &str) -> &'static str {
    let (last, rows) = line.split_once(": ").unwrap_or((line, ""));
    match rows_of(alloc, rows) {
        Ok(rows) => comes_back(alloc, number(last), rows.as_slice()),
        Err(NoMemory) => told(ReviveError::NoMemory),
    }
}

// Three tasks begin, the second under the first, and the second ends.
fn grow(alloc: Global, tree: &mut TaskTree) -> bool {
    let first = tree.lives(TaskNo(2)) && tree.begin(alloc, b"a", TaskNo(2)).is_ok();
    let second = tree.lives(TaskNo(3)) && tree.begin(alloc, b"b", TaskNo(3)).is_ok();
    let third = tree.lives(TaskNo(2)) && tree.begin(alloc, b"c", TaskNo(2)).is_ok();
    if tree.lives(TaskNo(4)) && tree.son(TaskNo(4)).is_nil() {
        tree.end(TaskNo(4));
    }
    first && second && third && tree.row(3) == Some(TaskNo(5)) && tree.row(4).is_none()
}

/// A tree in which tasks began and ended comes back from its rows.
pub fn scene(alloc: Global) -> &'static str {
    let Ok(made) = TaskTree::opening(alloc) else {
        return told(ReviveError::NoMemory);
    };
    let mut tree = made;
    if !grow(alloc, &mut tree) {
        return "not grown";
    }
    match tree.rows(alloc) {
        Ok(rows) => comes_back(alloc, 5, rows.as_slice()),
        Err(NoMemory) => told(ReviveError::NoMemory),
    }
}
