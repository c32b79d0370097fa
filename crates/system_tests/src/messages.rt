//! The rendezvous.
use crate::notes::{put, put_task};
use containers::Bytes;
use message_wait::{Offer, Waits};
use std::alloc::Global;
use task_numbers::TaskNo;

const A: TaskNo = TaskNo(3);

const B: TaskNo = TaskNo(4);

const C: TaskNo = TaskNo(5);

fn put_offer(out: &mut Bytes, offer: Offer) {
    put(
        out,
        match offer {
            Offer::Taken => b"T",
            Offer::NotReady => b"N",
            Offer::Queued => b"Q",
        },
    );
}

fn put_call(out: &mut Bytes, call: Option<(TaskNo, i16)>) {
    match call {
        Some((task, code)) => {
            put_task(out, task);
            put(out, if code == 7 { b"7" } else { b"?" });
        }
        None => put(out, b"-"),
    }
}

/// A message is taken where the other waits.
pub fn offers(alloc: Global, out: &mut Bytes) {
    if let Ok(mut waits) = Waits::new(alloc) {
        put_offer(out, waits.offer(A, B, 5, false));
        put_call(out, waits.wait_any(B));
        put_offer(out, waits.offer(A, B, 5, false));
        put_offer(out, waits.offer(A, B, 5, false));
    }
}

/// Callers are served in order of arrival: two are queued, of whom the first is taken; then the task waits for another alone.
pub fn served(alloc: Global, out: &mut Bytes) {
    if let Ok(mut waits) = Waits::new(alloc) {
        put_offer(out, waits.offer(C, B, 7, true));
        put_offer(out, waits.offer(A, B, 8, true));
        put_call(out, waits.wait_any(B));
        waits.wait_from(C, B);
        put_offer(out, waits.offer(TaskNo(9), C, 1, false));
        put_offer(out, waits.offer(B, C, 1, false));
    }
}

fn put_tasks(out: &mut Bytes, tasks: &[TaskNo]) {
    for task in tasks {
        put_task(out, *task);
    }
}

/// Those that waited for a task that has ended are told, and nobody waits for it then.
pub fn told(alloc: Global, out: &mut Bytes) {
    if let Ok(mut waits) = Waits::new(alloc) {
        let _queued = waits.offer(TaskNo(8), B, 1, true);
        let _queued = waits.offer(TaskNo(6), B, 2, true);
        waits.wait_from(TaskNo(7), B);
        waits.wait_from(A, B);
        waits.wait_from(C, A);
        waits.leave(TaskNo(6));
        if let Ok(told) = waits.gone(alloc, B) {
            put_tasks(out, told.as_slice());
        }
        put_call(out, waits.wait_any(B));
    }
}
