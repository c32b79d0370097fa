//! What tasks write and read at their channels.
ghost use Rattle.std.specs.Prelude.{◌≡◌, ◌≤◌, true, IfOk, IfSome};
ghost use Rattle.eu_base.specs.declared.request.Reply.TheVariants.{Done};
ghost use Rattle.eu_base.specs.Requests.{is_plain};
ghost use Rattle.task_requests.specs.Below.terminals.specs.Channels as channels;
ghost use Rattle.task_requests.specs.Below.system_meaning.specs.Systems.{Moment, uncouple_at};
ghost use Rattle.task_requests.specs.Below.system_meaning.specs.Serving as spec;
ghost use Rattle.live_system.specs.Machines.{StandsAt};
ghost use Rattle.task_requests.specs.Served.{ServedAs};

use eu_base::{NoMemory, Reply};
use live_system::System;
use task_numbers::TaskNo;

/// A task writes at its channel. It waits where it is coupled to none.
pub(crate) fn put(
    system: &mut System,
    task: TaskNo,
    bytes: &[u8],
    ends: bool,
) -> Result<Option<Reply>, NoMemory>
    ensures served { IfOk result (λ reply. (m : Moment) → StandsAt system.old m →
        ServedAs (spec.put (channels.channel_of task m.system.shared.channels) bytes.now ends m) system.new reply) }
    ensures plain { IfOk result (λ reply. IfSome reply (λ r. is_plain r ≡ true)) }
{
    match system.channel_of(task) {
        Some(channel) => {
            system.write(channel, bytes, ends)?;
            Ok(Some(Reply::Done))
        }
        None => Ok(None),
    }
}

/// A task leaves its channel, where it is coupled to one.
pub(crate) fn leave(system: &mut System, task: TaskNo) -> Result<Option<Reply>, NoMemory>
    ensures served { IfOk result (λ reply. (m : Moment) → StandsAt system.old m →
        ServedAs (spec.replies_with Done (uncouple_at (channels.channel_of task m.system.shared.channels) m)) system.new reply) }
    ensures plain { IfOk result (λ reply. IfSome reply (λ r. is_plain r ≡ true)) }
{
    match system.channel_of(task) {
        Some(channel) => {
            system.uncouple(channel)?;
            Ok(Some(Reply::Done))
        }
        None => Ok(Some(Reply::Done)),
    }
}

/// A task gets a line from its channel, and waits where there is none.
pub(crate) fn line_for(system: &mut System, task: TaskNo) -> Option<Reply>
    ensures served { (m : Moment) → StandsAt system.old m →
        ServedAs (spec.input (channels.channel_of task m.system.shared.channels) m) system.new result }
    ensures plain { IfSome result (λ r. is_plain r ≡ true) }
{
    let channel = system.channel_of(task);
    input(system, channel)
}

/// A line for a task at this channel; `None` where none waits there, or the task is coupled to none.
pub fn input(system: &mut System, channel: Option<u8>) -> Option<Reply>
    requires { IfSome channel (λ channel. (1 ≤ channel) × (channel ≤ 4)) }
    ensures served { (m : Moment) → StandsAt system.old m → ServedAs (spec.input channel m) system.new result }
    ensures plain { IfSome result (λ r. is_plain r ≡ true) }
{
    match channel {
        Some(channel) => take_line(system, channel),
        None => None,
    }
}

/// The oldest line in the queue of a channel.
fn take_line(system: &mut System, channel: u8) -> Option<Reply>
    requires low { 1 ≤ channel }
    requires high { channel ≤ 4 }
    ensures served { (m : Moment) → StandsAt system.old m →
        ServedAs (spec.line_taken (channels.channel channel m.system.shared.channels).queue channel m) system.new result }
    ensures plain { IfSome result (λ r. is_plain r ≡ true) }
{
    match system.unqueue(channel) {
        Some(line) => Some(Reply::Text(line)),
        None => None,
    }
}
