//! The four channels.
ghost use Rattle.std.specs.Prelude.{◌≤◌};

use crate::rows::words::{spelled, task, told};
use containers::{List, NoMemory};
use eu_base::ReviveError;
use std::alloc::Global;
use task_numbers::TaskNo;
use terminals::{CHANNELS, ChannelRow, Terminals};

// A row: its task and last task, and then the lines that wait.
fn row_of(alloc: Global, text: &str) -> Result<ChannelRow, NoMemory> {
    let mut row = ChannelRow {
        task: TaskNo::NIL,
        last: TaskNo::NIL,
        queue: List::new(alloc),
    };
    for (place, word) in text.split(' ').enumerate() {
        match place {
            0 => row.task = task(word),
            1 => row.last = task(word),
            _ => row.queue.push(spelled(alloc, word)?)?,
        }
    }
    Ok(row)
}

fn rows_of(alloc: Global, line: &str) -> Result<List<ChannelRow>, NoMemory> {
    let mut rows = List::new(alloc);
    for text in line.split('/') {
        rows.push(row_of(alloc, text)?)?;
    }
    Ok(rows)
}

fn is_channel(channels: &Terminals, channel: u8, row: &ChannelRow) -> bool
    requires low { 1 ≤ channel }
    requires high { channel ≤ CHANNELS }
{
    let mut place = 0u32;
    for line in row.queue.as_slice() {
        match channels.row(channel, place) {
            Some(found) => {
                if found != line.as_slice() {
                    return false;
                }
            }
            None => return false,
        }
        place = place.saturating_add(1);
    }
    channels.row(channel, place).is_none()
        && channels.task_of(channel) == row.task
        && channels.last(channel) == row.last
}

// Whether the channels have these rows.
fn has_rows(channels: &Terminals, rows: &[ChannelRow]) -> bool {
    if rows.len() != CHANNELS {
        return false;
    }
    is_channel(channels, 1, &rows[0])
        && is_channel(channels, 2, &rows[1])
        && is_channel(channels, 3, &rows[2])
        && is_channel(channels, 4, &rows[3])
}

fn comes_back(alloc: Global, rows: &[ChannelRow]) -> &'static str {
    match Terminals::of(alloc, rows) {
        Ok(made) => {
            if has_rows(&made, rows) {
                "same"
            } else {
                "other"
            }
        }
        Err(cause) => told(cause),
    }
}

/// What becomes of the rows of a line.
pub fn read(alloc: Global, line: &str) -> &'static str {
    match rows_of(alloc, line) {
        Ok(rows) => comes_back(alloc, rows.as_slice()),
        Err(NoMemory) => told(ReviveError::NoMemory),
    }
}

// A channel is coupled and has two lines, and another had a task.
fn play(alloc: Global, channels: &mut Terminals) -> bool {
    channels.set_last(4, TaskNo(9));
    if channels.task_of(2).is_nil() && channels.channel_of(TaskNo(7)).is_none() {
        channels.couple(2, TaskNo(7));
    }
    match (spelled(alloc, "a"), spelled(alloc, "bc")) {
        (Ok(first), Ok(second)) => {
            first.as_slice().len() <= 250
                && second.as_slice().len() <= 250
                && channels.line_in(2, first).is_ok()
                && channels.line_in(2, second).is_ok()
        }
        _ => false,
    }
}

/// Channels at which something was done come back from their rows.
pub fn scene(alloc: Global) -> &'static str {
    let Ok(made) = Terminals::new(alloc) else {
        return told(ReviveError::NoMemory);
    };
    let mut channels = made;
    if !play(alloc, &mut channels) {
        return "not played";
    }
    match rows_of(alloc, "0 0/7 0 a bc/0 0/0 9") {
        Ok(rows) => {
            if has_rows(&channels, rows.as_slice()) {
                comes_back(alloc, rows.as_slice())
            } else {
                "other"
            }
        }
        Err(NoMemory) => told(ReviveError::NoMemory),
    }
}
