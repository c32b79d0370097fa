//! The ready list.
use crate::rows::words::{task, told};
use containers::{List, NoMemory};
use eu_base::ReviveError;
use slicer::Slicer;
use std::alloc::Global;
use task_numbers::TaskNo;

fn rows_of(alloc: Global, line: &str) -> Result<List<TaskNo>, NoMemory> {
    let mut rows = List::new(alloc);
    for word in line.split(' ') {
        if !word.is_empty() {
            rows.push(task(word))?;
        }
    }
    Ok(rows)
}

// Whether a list has these rows and no other.
fn has_rows(ready: &Slicer, rows: &[TaskNo]) -> bool {
    let mut place = 0u32;
    for row in rows {
        if ready.row(place) != Some(*row) {
            return false;
        }
        place = place.saturating_add(1);
    }
    ready.row(place).is_none()
}

fn comes_back(alloc: Global, rows: &[TaskNo]) -> &'static str {
    match Slicer::of(alloc, rows) {
        Ok(made) => {
            if has_rows(&made, rows) {
                "same"
            } else {
                "other"
            }
        }
        Err(cause) => told(cause),
    }
}

/// What becomes of the tasks of a line.
pub fn read(alloc: Global, line: &str) -> &'static str {
    match rows_of(alloc, line) {
        Ok(rows) => comes_back(alloc, rows.as_slice()),
        Err(NoMemory) => told(ReviveError::NoMemory),
    }
}

/// Of three tasks the first goes to the end; the list comes back from its rows.
pub fn scene(alloc: Global) -> &'static str {
    match Slicer::new(alloc) {
        Ok(made) => {
            let mut ready = made;
            ready.wake(TaskNo(3));
            ready.wake(TaskNo(5));
            ready.wake(TaskNo(4));
            let _first = ready.next();
            ready.back(TaskNo(3));
            let rows = [TaskNo(5), TaskNo(4), TaskNo(3)];
            if has_rows(&ready, &rows) {
                comes_back(alloc, &rows)
            } else {
                "other"
            }
        }
        Err(NoMemory) => told(ReviveError::NoMemory),
    }
}
