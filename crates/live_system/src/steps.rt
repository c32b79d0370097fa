//! What changes of what all tasks have together, and replies.
ghost use Rattle.std.specs.Prelude.{◌≡◌, ◌≤◌, true, drop, slice_get, OnOk, IfSome, length};
ghost use Rattle.eu_base.specs.Requests.{plain, is_plain};
ghost use Rattle.live_system.specs.Below.session_text.specs.Display.{close_all as closed};
ghost use Rattle.live_system.specs.Below.slicer.specs.Rotation as rotation;
ghost use Rattle.live_system.specs.Below.terminals.specs.Channels as channels;
ghost use Rattle.live_system.specs.Below.system_meaning.specs.Systems.{Moment, on_system, on_display, on_ready, on_channels, back, couple, given, write, say, tell, uncouple};
ghost use Rattle.live_system.specs.Below.system_meaning.specs.Monitor.{prompted};
ghost use Rattle.live_system.specs.Machines.{StandsAt};

use crate::system::System;
use eu_base::{Bytes, NoMemory, Reply};
use live_packets::place_of;
use task_numbers::{LONGEST_LINE, TaskNo};

impl System {
    /// A task writes at a channel.
    pub fn write(&mut self, channel: u8, bytes: &[u8], ends: bool) -> Result<(), NoMemory>
        requires low { 1 ≤ channel }
        requires high { channel ≤ 4 }
        ensures { OnOk result ((m : Moment) → StandsAt self.old m → StandsAt self.new (write channel bytes.now ends m)) }
    {
        self.desk.write(channel, bytes, ends)
    }

    /// A prompt or a message is shown at a channel.
    pub fn say(&mut self, channel: u8, bytes: &[u8]) -> Result<(), NoMemory>
        requires low { 1 ≤ channel }
        requires high { channel ≤ 4 }
        ensures { OnOk result ((m : Moment) → StandsAt self.old m → StandsAt self.new (say channel bytes.now m)) }
    {
        self.desk.say(channel, bytes)
    }

    /// And where a task is coupled.
    pub fn tell(&mut self, task: TaskNo, bytes: &[u8]) -> Result<(), NoMemory>
        ensures { OnOk result ((m : Moment) → StandsAt self.old m → StandsAt self.new (tell task bytes.now m)) }
    {
        self.desk.tell(task, bytes)
    }

    /// The prompt of a task is shown where it is coupled.
    pub fn prompt(&mut self, task: TaskNo) -> Result<(), NoMemory>
        ensures { OnOk result ((m : Moment) → StandsAt self.old m → StandsAt self.new (prompted task m)) }
    {
        self.desk.prompt(task)
    }

    /// A channel is free for another task, and its queue empty.
    pub fn uncouple(&mut self, channel: u8) -> Result<(), NoMemory>
        requires low { 1 ≤ channel }
        requires high { channel ≤ 4 }
        ensures { OnOk result ((m : Moment) → StandsAt self.old m → StandsAt self.new (uncouple channel m)) }
    {
        self.desk.uncouple(channel)
    }

    /// A task is coupled to a channel, where it is coupled to none and the channel is free.
    pub fn couple(&mut self, channel: u8, task: TaskNo)
        requires low { 1 ≤ channel }
        requires high { channel ≤ 4 }
        ensures { (m : Moment) → StandsAt self.old m → StandsAt self.new (on_system (couple channel task) m) }
    {
        self.desk.couple(channel, task)
    }

    /// A channel gets a last task.
    pub fn set_last(&mut self, channel: u8, task: TaskNo)
        requires low { 1 ≤ channel }
        requires high { channel ≤ 4 }
        ensures { (m : Moment) → StandsAt self.old m → StandsAt self.new (on_system (on_channels (channels.with_last channel task)) m) }
    {
        self.desk.set_last(channel, task)
    }

    /// A line waits in the queue of a channel, where it has room.
    pub fn queue_line(&mut self, channel: u8, line: Bytes)
        requires low { 1 ≤ channel }
        requires high { channel ≤ 4 }
        ensures { (m : Moment) → length line ≤ LONGEST_LINE → StandsAt self.old m → StandsAt self.new (on_system (on_channels (channels.queued channel line)) m) }
    {
        if line.as_slice().len() <= LONGEST_LINE {
            self.desk.queue_line(channel, line);
        }
    }

    /// The oldest line in the queue of a channel is taken, where there is one.
    pub fn unqueue(&mut self, channel: u8) -> Option<Bytes>
        requires low { 1 ≤ channel }
        requires high { channel ≤ 4 }
        ensures line { (m : Moment) → StandsAt self.old m → result ≡ slice_get (channels.channel channel m.system.shared.channels).queue 0 }
        ensures taken { (m : Moment) → StandsAt self.old m → StandsAt self.new (on_system (on_channels (channels.unqueued channel)) m) }
        ensures short { IfSome result (λ line. length line ≤ LONGEST_LINE) }
    {
        self.desk.unqueue(channel)
    }

    /// A task comes to the end of the ready list, where it lives and does not stand in it.
    pub fn back(&mut self, task: TaskNo)
        ensures { (m : Moment) → StandsAt self.old m → StandsAt self.new (on_system (back task) m) }
    {
        self.desk.back(task)
    }

    /// A task is not ready any more.
    pub fn leave(&mut self, task: TaskNo)
        ensures { (m : Moment) → StandsAt self.old m → StandsAt self.new (on_system (on_ready (rotation.without task)) m) }
    {
        self.desk.leave(task)
    }

    /// The first ready task, which is taken out of the ready list.
    pub fn next_ready(&mut self) -> Option<TaskNo>
        ensures first { (m : Moment) → StandsAt self.old m → result ≡ slice_get m.system.shared.ready 0 }
        ensures others { (m : Moment) → StandsAt self.old m → StandsAt self.new (on_system (on_ready (drop 1)) m) }
    {
        self.desk.pop_ready()
    }

    /// All open lines end.
    pub fn close_all(&mut self) -> Result<(), NoMemory>
        ensures { OnOk result ((m : Moment) → StandsAt self.old m → StandsAt self.new (on_display closed m)) }
    {
        self.desk.close_all()
    }

    /// A task gets a reply that is no message, where it makes a request.
    pub fn reply(&mut self, task: TaskNo, reply: Reply) -> Result<(), NoMemory>
        requires plain { is_plain reply ≡ true }
        ensures { OnOk result ((m : Moment) → StandsAt self.old m → StandsAt self.new (on_system (given task (plain reply)) m)) }
    {
        match place_of(&self.desk, &self.tasks, task) {
            None => Ok(()),
            Some(place) => self.tasks.answer(place, reply),
        }
    }
}
