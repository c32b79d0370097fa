//! One channel.
ghost use Rattle.std.specs.Prelude.{◌≡◌, ◌≢◌, ◌≤◌, length, nat_lt, slice_get, option_copied, IfErr, IfOk, IfSome};
ghost use Rattle.std.specs.Result.{is_err};
ghost use Rattle.terminals.specs.Channels as spec;
ghost use Rattle.terminals.specs.Rows.{HasRoom, channel_of};

use crate::ChannelRow;
use circular_buffer::HeapCircularBuffer;
use containers::{Bytes, NoMemory};
use eu_base::ReviveError;
use std::alloc::Global;
use std::marker::Model;
use task_numbers::{LONGEST_LINE, TaskNo};

/// How many lines can wait at a channel.
pub const QUEUED_LINES: usize = 16;

/// A line found no place: as many wait as can.
#[derive(Clone, Copy, PartialEq, Eq)]
pub struct QueueFull;

/// A channel: its task, its last task, and the lines that wait, the oldest first.
#[derive(Drop)]
pub(crate) struct Channel {
    task: TaskNo,
    last: TaskNo,
    queue: HeapCircularBuffer<Bytes>,
}

impl Model for Channel {
    ghost use Rattle.std.specs.Prelude.{◌≡◌};
    ghost use Rattle.terminals.specs.Couplings.{HasShortLines};
    ghost use Rattle.terminals.specs.Channels as spec;
    ghost use Rattle.terminals.specs.declared.channel.TheConstants.{QUEUED_LINES};

    ghost Value = { spec.Channel };

    ghost view = { λ c. record { task = c.task; last = c.last; queue = c.queue.items } };

    ghost invariant = { λ c. (c.queue.capacity ≡ QUEUED_LINES) × HasShortLines c.queue.items };
}

impl Channel {
    pub(crate) fn new(alloc: Global) -> Result<Channel, NoMemory>
        ensures { IfOk result (λ made. made ≡ spec.unused) }
    {
        Ok(Channel {
            task: TaskNo::NIL,
            last: TaskNo::NIL,
            queue: HeapCircularBuffer::with_capacity(alloc, QUEUED_LINES)?,
        })
    }

    /// The channel with this row. `NotSystem` comes exactly where more than 16 lines wait, or one is longer than a line can be.
    pub(crate) fn of(alloc: Global, row: &ChannelRow) -> Result<Channel, ReviveError>
        ensures channel { IfOk result (λ made. made ≡ channel_of row.now) }
        ensures refused { IfErr result (λ cause. cause ≢ ReviveError.NoMemory → HasRoom (channel_of row.now) → ⊥) }
    {
        let mut made = Channel::new(alloc)?;
        made.task = row.task;
        made.last = row.last;
        for line in row.queue.as_slice() {
            if line.as_slice().len() > LONGEST_LINE {
                return Err(ReviveError::NotSystem);
            }
            let line = Bytes::from(alloc, line.as_slice())?;
            if made.push(line).is_err() {
                return Err(ReviveError::NotSystem);
            }
        }
        Ok(made)
    }

    /// What holds of every channel.
    pub(crate) fn law(&self)
        ensures { HasRoom self.now }
    {
        let _room = self.queue.capacity();
    }

    /// The line at a place of the queue, from 0.
    pub(crate) fn line(&self, place: usize) -> Option<&Bytes>
        ensures { option_copied result ≡ slice_get self.now.queue place }
    {
        self.queue.get(place)
    }

    pub(crate) fn task(&self) -> TaskNo
        ensures { result ≡ self.now.task }
    {
        self.task
    }

    pub(crate) fn is_at(&self, task: TaskNo) -> bool
        ensures { result ≡ spec.is_at task self.now }
    {
        self.task.is(task)
    }

    pub(crate) fn last(&self) -> TaskNo
        ensures { result ≡ self.now.last }
    {
        self.last
    }

    pub(crate) fn couple(&mut self, task: TaskNo)
        ensures { self.new ≡ record self.old { task = task } }
    {
        self.task = task;
    }

    pub(crate) fn uncouple(&mut self)
        ensures { self.new ≡ spec.alone self.old }
    {
        self.task = TaskNo::NIL;
        self.queue.clear();
    }

    pub(crate) fn set_last(&mut self, task: TaskNo)
        ensures { self.new ≡ record self.old { last = task } }
    {
        self.last = task;
    }

    pub(crate) fn is_full(&self) -> bool
        ensures { result ≡ spec.is_queue_full self.now }
    {
        self.queue.len() >= QUEUED_LINES
    }

    pub(crate) fn has_line(&self) -> bool
        ensures { result ≡ spec.has_line self.now }
    {
        !self.queue.is_empty()
    }

    pub(crate) fn push(&mut self, line: Bytes) -> Result<(), QueueFull>
        requires { length line ≤ LONGEST_LINE }
        ensures full { is_err result ≡ spec.is_queue_full self.old }
        ensures queue { self.new ≡ spec.with_line line self.old }
    {
        match self.queue.try_push_back(line) {
            Ok(()) => Ok(()),
            Err(_) => Err(QueueFull),
        }
    }

    pub(crate) fn pop(&mut self) -> Option<Bytes>
        ensures line { result ≡ slice_get self.old.queue 0 }
        ensures queue { self.new ≡ spec.without_line self.old }
        ensures short { IfSome result (λ line. length line ≤ LONGEST_LINE) }
    {
        self.queue.pop_front()
    }
}
