//! What records rows are.

use crate::record_cells::bytes;
use eu_base::Bytes;
use std::alloc::Global;
use sys_record::{RecordError, read, read_disk, read_task, write, write_disk, write_task};

/// What is read.
#[derive(Clone, Copy)]
pub enum Form {
    Task,
    System,
    /// A system with blocks in place of its tasks.
    Disk,
}

/// What is answered.
#[derive(Clone, Copy, PartialEq, Eq)]
enum Answer {
    /// A record with these very bytes.
    Record,
    NoRecord,
    NoMemory,
}

fn is_again(bytes: &[u8], written: &Bytes) -> Answer {
    if written.as_slice() == bytes {
        Answer::Record
    } else {
        Answer::NoRecord
    }
}

fn refused(error: RecordError) -> Answer {
    match error {
        RecordError::NoMemory => Answer::NoMemory,
        RecordError::NotRecord => Answer::NoRecord,
    }
}

fn task_answer(alloc: Global, bytes: &[u8]) -> Answer {
    match read_task(alloc, bytes) {
        Ok(task) => match write_task(alloc, &task) {
            Ok(written) => is_again(bytes, &written),
            Err(_) => Answer::NoMemory,
        },
        Err(error) => refused(error),
    }
}

fn system_answer(alloc: Global, bytes: &[u8]) -> Answer {
    match read(alloc, bytes) {
        Ok(system) => match write(alloc, &system) {
            Ok(written) => is_again(bytes, &written),
            Err(_) => Answer::NoMemory,
        },
        Err(error) => refused(error),
    }
}

fn disk_answer(alloc: Global, bytes: &[u8]) -> Answer {
    match read_disk(alloc, bytes) {
        Ok(disk) => match write_disk(alloc, &disk) {
            Ok(written) => is_again(bytes, &written),
            Err(_) => Answer::NoMemory,
        },
        Err(error) => refused(error),
    }
}

fn answered(alloc: Global, form: Form, bytes: &[u8]) -> Answer {
    match form {
        Form::Task => task_answer(alloc, bytes),
        Form::System => system_answer(alloc, bytes),
        Form::Disk => disk_answer(alloc, bytes),
    }
}

fn is_refused(alloc: Global, form: Form, bytes: &[u8]) -> bool {
    answered(alloc, form, bytes) == Answer::NoRecord
}

fn parts(row: &str) -> (Form, &str) {
    let row = row.strip_prefix('\n').unwrap_or(row);
    let (form, cells) = row.split_once('|').unwrap_or((row, ""));
    match form {
        "T" => (Form::Task, cells),
        "S" => (Form::System, cells),
        _ => (Form::Disk, cells),
    }
}

fn is_record(alloc: Global, row: &str) -> bool {
    let (form, cells) = parts(row);
    answered(alloc, form, bytes(alloc, cells).as_slice()) == Answer::Record
}

fn is_no_record(alloc: Global, row: &str) -> bool {
    let (form, cells) = parts(row);
    is_refused(alloc, form, bytes(alloc, cells).as_slice())
}

/// How many rows are records, before the first that is not.
pub fn records(alloc: Global, rows: &str) -> usize {
    let mut count = 0usize;
    for row in rows.split(';') {
        if !is_record(alloc, row) {
            return count;
        }
        count = count.saturating_add(1);
    }
    count
}

/// How many rows are none, before the first that is one.
pub fn refusals(alloc: Global, rows: &str) -> usize {
    let mut count = 0usize;
    for row in rows.split(';') {
        if !is_no_record(alloc, row) {
            return count;
        }
        count = count.saturating_add(1);
    }
    count
}

// Whether nothing is read of each part of the bytes from the front, and of one byte more.
fn is_whole(alloc: Global, form: Form, whole: &Bytes) -> bool {
    let all = whole.as_slice();
    for len in 0..all.len() {
        if !is_refused(alloc, form, &all[..len]) {
            return false;
        }
    }
    let mut longer = Bytes::new(alloc);
    let _put = longer.append(all).is_ok() && longer.append(&[0]).is_ok();
    is_refused(alloc, form, longer.as_slice())
}

/// How many rows are no record without their last bytes or with one more, before the first that is one.
pub fn wholes(alloc: Global, rows: &str) -> usize {
    let mut count = 0usize;
    for row in rows.split(';') {
        let (form, cells) = parts(row);
        if !is_whole(alloc, form, &bytes(alloc, cells)) {
            return count;
        }
        count = count.saturating_add(1);
    }
    count
}
