//! The four channels.
ghost use Rattle.std.specs.Prelude.{◌≡◌, ◌≢◌, ◌<◌, ◌≤◌, None, length, map, position, slice_get, slice_index_or, option_copied, IfErr, IfOk, IfSome};
ghost use Rattle.std.specs.Result.{is_err};
ghost use Rattle.task_numbers.specs.Numbers.{niltask};
ghost use Rattle.terminals.specs.Channels as spec;
ghost use Rattle.terminals.specs.Couplings.{IsOneToOne};
ghost use Rattle.terminals.specs.Rows.{AreChannels, channel_of};

use crate::apart::are_apart;
use crate::channel::Channel;
use crate::{ChannelRow, QueueFull};
use containers::{Bytes, NoMemory};
use eu_base::ReviveError;
use std::alloc::Global;
use std::marker::Model;
use task_numbers::{LONGEST_LINE, TaskNo};

/// How many channels there are; their numbers are 1 to 4.
pub const CHANNELS: usize = 4;

/// The channels, with at most one task at each and at most one channel for each task. Room for all lines was taken at the
/// beginning, so that no other call takes any.
#[derive(Drop)]
pub struct Terminals {
    channels: [Channel; 4],
}

impl Model for Terminals {
    ghost use Rattle.std.specs.Prelude.{List};
    ghost use Rattle.terminals.specs.Channels as spec;

    ghost Value = { List spec.Channel };

    ghost view = { λ terminals. terminals.channels };

    ghost use Rattle.terminals.specs.Couplings.{IsOneToOne};

    ghost invariant = { λ terminals. IsOneToOne terminals.channels };
}

impl Terminals {
    /// No channel is coupled, none has a last task, and no line waits.
    pub fn new(alloc: Global) -> Result<Terminals, NoMemory>
        ensures { IfOk result (λ made. made ≡ spec.opening) }
    {
        let first = Channel::new(alloc)?;
        let second = Channel::new(alloc)?;
        let third = Channel::new(alloc)?;
        let fourth = Channel::new(alloc)?;
        Ok(Terminals {
            channels: [first, second, third, fourth],
        })
    }

    /// The channels with these rows. `NotSystem` comes exactly where they are no channels: not four, or two have one task, or more
    /// than 16 lines wait at one, or a line is longer than 250 bytes. It takes the room for all lines.
    pub fn of(alloc: Global, rows: &[ChannelRow]) -> Result<Terminals, ReviveError>
        ensures rows { IfOk result (λ made. made ≡ map channel_of rows.now) }
        ensures refused { IfErr result (λ cause. cause ≢ ReviveError.NoMemory → AreChannels (map channel_of rows.now) → ⊥) }
    {
        if rows.len() != CHANNELS || !are_apart(rows) {
            return Err(ReviveError::NotSystem);
        }
        let first = match channel_at(alloc, rows, 0) {
            Ok(channel) => channel,
            Err(cause) => return Err(cause),
        };
        let second = match channel_at(alloc, rows, 1) {
            Ok(channel) => channel,
            Err(cause) => return Err(cause),
        };
        let third = match channel_at(alloc, rows, 2) {
            Ok(channel) => channel,
            Err(cause) => return Err(cause),
        };
        let fourth = match channel_at(alloc, rows, 3) {
            Ok(channel) => channel,
            Err(cause) => return Err(cause),
        };
        Ok(Terminals {
            channels: [first, second, third, fourth],
        })
    }

    /// The line at a place of a channel's queue, from 0; `None` exactly past its end.
    pub fn row(&self, channel: u8, place: u32) -> Option<&[u8]>
        requires low { 1 ≤ channel }
        requires high { channel ≤ CHANNELS }
        ensures { option_copied result ≡ slice_get (spec.channel channel self.now).queue place }
    {
        match self.channels[channel as usize - 1].line(place as usize) {
            Some(line) => Some(line.as_slice()),
            None => None,
        }
    }

    /// The task that a channel is coupled to, or niltask.
    pub fn task_of(&self, channel: u8) -> TaskNo
        requires low { 1 ≤ channel }
        requires high { channel ≤ CHANNELS }
        ensures { result ≡ (spec.channel channel self.now).task }
    {
        self.channels[channel as usize - 1].task()
    }

    /// Couples a channel to a task; neither is coupled before.
    pub fn couple(&mut self, channel: u8, task: TaskNo)
        requires low { 1 ≤ channel }
        requires high { channel ≤ CHANNELS }
        requires free { (spec.channel channel self.old).task ≡ niltask }
        requires apart { spec.channel_of task self.old ≡ None }
        ensures { self.new ≡ spec.coupled channel task self.old }
    {
        self.channels[channel as usize - 1].couple(task);
    }

    /// Uncouples a channel and empties its queue; its last task stays.
    pub fn uncouple(&mut self, channel: u8)
        requires low { 1 ≤ channel }
        requires high { channel ≤ CHANNELS }
        ensures { self.new ≡ spec.uncoupled channel self.old }
    {
        self.channels[channel as usize - 1].uncouple();
    }

    /// The channel that a task is coupled to, which is the only one; `None` exactly where there is none.
    pub fn channel_of(&self, task: TaskNo) -> Option<u8>
        ensures channel { result ≡ spec.channel_of task self.now }
        ensures within { IfSome result (λ channel. (1 ≤ channel) × (channel ≤ CHANNELS)) }
    {
        if task.is_nil() {
            return None;
        }
        match self.place_of(task) {
            Some(place) => Some(place as u8 + 1),
            None => None,
        }
    }

    /// The channel's last task, or niltask.
    pub fn last(&self, channel: u8) -> TaskNo
        requires low { 1 ≤ channel }
        requires high { channel ≤ CHANNELS }
        ensures { result ≡ (spec.channel channel self.now).last }
    {
        self.channels[channel as usize - 1].last()
    }

    /// Notes the channel's last task.
    pub fn set_last(&mut self, channel: u8, task: TaskNo)
        requires low { 1 ≤ channel }
        requires high { channel ≤ CHANNELS }
        ensures { self.new ≡ spec.with_last channel task self.old }
    {
        self.channels[channel as usize - 1].set_last(task);
    }

    /// Whether as many lines wait at a channel as can.
    pub fn is_queue_full(&self, channel: u8) -> bool
        requires low { 1 ≤ channel }
        requires high { channel ≤ CHANNELS }
        ensures { result ≡ spec.is_queue_full (spec.channel channel self.now) }
    {
        self.channels[channel as usize - 1].is_full()
    }

    /// Whether a line waits at a channel.
    pub fn has_line(&self, channel: u8) -> bool
        requires low { 1 ≤ channel }
        requires high { channel ≤ CHANNELS }
        ensures { result ≡ spec.has_line (spec.channel channel self.now) }
    {
        self.channels[channel as usize - 1].has_line()
    }

    /// A line of at most 250 bytes comes to the end of a channel's queue. `QueueFull` comes exactly where 16 lines stand there;
    /// the line is then gone and nothing else changed.
    pub fn line_in(&mut self, channel: u8, text: Bytes) -> Result<(), QueueFull>
        requires low { 1 ≤ channel }
        requires high { channel ≤ CHANNELS }
        requires short { length text ≤ LONGEST_LINE }
        ensures full { is_err result ≡ spec.is_queue_full (spec.channel channel self.old) }
        ensures queue { self.new ≡ spec.queued channel text self.old }
    {
        self.channels[channel as usize - 1].push(text)
    }

    /// Takes the oldest line of a channel's queue; `None` exactly where there is none.
    pub fn line_back(&mut self, channel: u8) -> Option<Bytes>
        requires low { 1 ≤ channel }
        requires high { channel ≤ CHANNELS }
        ensures line { result ≡ slice_get (spec.channel channel self.old).queue 0 }
        ensures queue { self.new ≡ spec.unqueued channel self.old }
        ensures short { IfSome result (λ line. length line ≤ LONGEST_LINE) }
    {
        self.channels[channel as usize - 1].pop()
    }

    /// What holds of all channels: they are four, no two are coupled to one task, and at most 16 lines of at most 250 bytes wait at
    /// each.
    pub fn law(&self)
        ensures one { IsOneToOne self.now }
        ensures channels { AreChannels self.now }
    {
        let channels = self.all();
        for channel in channels {
            channel.law();
        }
    }

    fn all(&self) -> &[Channel]
        ensures all { result.now ≡ self.now }
        ensures four { length result.now ≡ CHANNELS }
        ensures one { IsOneToOne result.now }
    {
        &self.channels
    }

    fn place_of(&self, task: TaskNo) -> Option<usize>
        ensures place { result ≡ position (spec.is_at task) self.now }
        ensures within { IfSome result (λ place. place < 4) }
    {
        self.channels.iter().position(|channel| channel.is_at(task))
    }
}

/// The channel of the row at a place, from 0.
fn channel_at(alloc: Global, rows: &[ChannelRow], place: usize) -> Result<Channel, ReviveError>
    requires { place < length rows.now }
    ensures channel { IfOk result (λ made. made ≡ slice_index_or (map channel_of rows.now) place spec.unused) }
    ensures refused { IfErr result (λ cause. cause ≢ ReviveError.NoMemory → AreChannels (map channel_of rows.now) → ⊥) }
{
    match Channel::of(alloc, &rows[place]) {
        Ok(channel) => Ok(channel),
        Err(cause) => Err(cause),
    }
}
