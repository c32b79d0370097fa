//! Those that wait for messages.
use crate::rows::words::{task, told};
use containers::{List, NoMemory};
use eu_base::ReviveError;
use message_wait::{Caller, Receiver, Waits};
use std::alloc::Global;
use task_numbers::TaskNo;

// A caller, as `3>5`.
fn caller_of(word: &str) -> Option<Caller> {
    let (from, to) = word.split_once('>')?;
    Some(Caller {
        from: task(from),
        to: task(to),
        code: -7,
    })
}

// A receiver, as `6?`, or `6?3` where it waits for the answer of 3.
fn receiver_of(word: &str) -> Option<Receiver> {
    let (waiting, of) = word.split_once('?')?;
    Some(Receiver {
        task: task(waiting),
        of: if of.is_empty() { None } else { Some(task(of)) },
    })
}

fn callers_of(alloc: Global, line: &str) -> Result<List<Caller>, NoMemory> {
    let mut callers = List::new(alloc);
    for word in line.split(' ') {
        if let Some(caller) = caller_of(word) {
            callers.push(caller)?;
        }
    }
    Ok(callers)
}

fn receivers_of(alloc: Global, line: &str) -> Result<List<Receiver>, NoMemory> {
    let mut receivers = List::new(alloc);
    for word in line.split(' ') {
        if let Some(receiver) = receiver_of(word) {
            receivers.push(receiver)?;
        }
    }
    Ok(receivers)
}

fn has_callers(waits: &Waits, callers: &[Caller]) -> bool {
    let mut place = 0u32;
    for caller in callers {
        if waits.row(place) != Some((caller.from, caller.to, caller.code)) {
            return false;
        }
        place = place.saturating_add(1);
    }
    waits.row(place).is_none()
}

fn has_receivers(waits: &Waits, receivers: &[Receiver]) -> bool {
    let mut place = 0u32;
    for receiver in receivers {
        if waits.receiver(place) != Some(*receiver) {
            return false;
        }
        place = place.saturating_add(1);
    }
    waits.receiver(place).is_none()
}

fn comes_back(alloc: Global, callers: &[Caller], receivers: &[Receiver]) -> &'static str {
    match Waits::of(alloc, callers, receivers) {
        Ok(made) => {
            if has_callers(&made, callers) && has_receivers(&made, receivers) {
                "same"
            } else {
                "other"
            }
        }
        Err(cause) => told(cause),
    }
}

/// What becomes of the callers and receivers of a line.
pub fn read(alloc: Global, line: &str) -> &'static str {
    let Ok(callers) = callers_of(alloc, line) else {
        return told(ReviveError::NoMemory);
    };
    match receivers_of(alloc, line) {
        Ok(receivers) => comes_back(alloc, callers.as_slice(), receivers.as_slice()),
        Err(NoMemory) => told(ReviveError::NoMemory),
    }
}

/// A task calls, and two wait, the later number first; they come back from their rows.
pub fn scene(alloc: Global) -> &'static str {
    let Ok(made) = Waits::new(alloc) else {
        return told(ReviveError::NoMemory);
    };
    let mut waits = made;
    let _queued = waits.offer(TaskNo(3), TaskNo(5), -7, true);
    if !waits.is_waiting(TaskNo(6)) {
        waits.wait_from(TaskNo(6), TaskNo(3));
    }
    if !waits.is_waiting(TaskNo(4)) {
        let _none = waits.wait_any(TaskNo(4));
    }
    let callers = [Caller {
        from: TaskNo(3),
        to: TaskNo(5),
        code: -7,
    }];
    let receivers = [
        Receiver {
            task: TaskNo(4),
            of: None,
        },
        Receiver {
            task: TaskNo(6),
            of: Some(TaskNo(3)),
        },
    ];
    if has_callers(&waits, &callers) && has_receivers(&waits, &receivers) {
        comes_back(alloc, &callers, &receivers)
    } else {
        "other"
    }
}
