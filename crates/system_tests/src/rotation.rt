//! The ready list.
use crate::notes::{put, put_task};
use containers::Bytes;
use slicer::Slicer;
use std::alloc::Global;
use task_numbers::TaskNo;

fn put_turn(out: &mut Bytes, turn: Option<TaskNo>) {
    match turn {
        Some(task) => put_task(out, task),
        None => put(out, b"-"),
    }
}

/// Whose turns it is, of three tasks of which the first goes back to the end and the last leaves.
pub fn turns(alloc: Global, out: &mut Bytes) {
    if let Ok(mut ready) = Slicer::new(alloc) {
        ready.wake(TaskNo(3));
        ready.wake(TaskNo(5));
        ready.wake(TaskNo(4));
        put_turn(out, ready.next());
        ready.back(TaskNo(3));
        ready.leave(TaskNo(4));
        put_turn(out, ready.next());
        put_turn(out, ready.next());
        put_turn(out, ready.next());
    }
}
