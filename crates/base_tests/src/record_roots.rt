//! Roots in a record, and others in their place.

use crate::record_cells::bytes;
use eu_base::Bytes;
use std::alloc::Global;
use sys_record::{
    TaskRecord, read, read_task, system_roots, task_roots, with_task_roots, write_task,
};

// The task's bytes with these roots; none where they are not as many as its own.
fn replaced(alloc: Global, task: TaskRecord, roots: &[u32]) -> Option<Bytes> {
    let own = task_roots(alloc, &task).ok()?;
    if own.len() != roots.len() {
        return None;
    }
    write_task(alloc, &with_task_roots(task, roots)).ok()
}

/// Whether the first row is the second one with these roots.
pub fn is_replaced(alloc: Global, row: &str, roots: &[u32], told: &str) -> bool {
    match read_task(alloc, bytes(alloc, row).as_slice()) {
        Ok(task) => match replaced(alloc, task, roots) {
            Some(found) => found.as_slice() == bytes(alloc, told).as_slice(),
            None => false,
        },
        Err(_) => false,
    }
}

/// Whether these are the roots of the system in a row.
pub fn are_roots(alloc: Global, row: &str, roots: &[u32]) -> bool {
    match read(alloc, bytes(alloc, row).as_slice()) {
        Ok(system) => match system_roots(alloc, &system) {
            Ok(found) => found.as_slice() == roots,
            Err(_) => false,
        },
        Err(_) => false,
    }
}
