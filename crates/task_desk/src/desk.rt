//! The desk of the tasks.
ghost use Rattle.std.specs.Prelude.{◌≡◌, ◌<◌, ◌≤◌, true, false, not, ◌&&◌, None, Some, [], ◌∷◌, ◌++◌, List as Lists, drop, length, slice_get, IfOk, IfSome, OnOk};
ghost use Rattle.std.specs.Option.{option_copied, option_map};
ghost use Rattle.task_numbers.specs.Numbers.{niltask};
ghost use Rattle.eu_base.specs.SpaceOperations.{is_name};
ghost use Rattle.task_tree.specs.Tree as trees;
ghost use Rattle.task_tree.specs.Families as families;
ghost use Rattle.slicer.specs.Rotation as rotation;
ghost use Rattle.message_wait.specs.Rendezvous as rendezvous;
ghost use Rattle.terminals.specs.Channels as terminal;
ghost use Rattle.session_text.specs.Display as shows;
ghost use Rattle.task_desk.specs.Below.units.specs.Library.{Library};
ghost use Rattle.system_meaning.specs.Tasks.{Own};
ghost use Rattle.system_meaning.specs.Systems as machine;
ghost use Rattle.system_meaning.specs.Ends as ends;
ghost use Rattle.system_meaning.specs.Serving.{input};
ghost use Rattle.system_meaning.specs.Supervisor as supervisor;
ghost use Rattle.task_desk.specs.Desks as desks;
ghost use Rattle.task_desk.specs.Desks.{Makes, IsDesk};

use containers::{Bytes, List, NoMemory};
use eu_base::Stop;
use message_wait::{Offer, Waits};
use session_text::Display;
use slicer::Slicer;
use std::alloc::Global;
use std::marker::Model;
use std::mem;
use task_numbers::{LONGEST_LINE, TaskNo};
use task_tree::{BeginError, Entry, TaskTree};
use terminals::{CHANNELS, Terminals};

/// The tree of the tasks, the ready ones, those that wait for messages, the channels, and what is shown in the course of an event. A call that memory was
/// refused to may leave it with a part of what it was to do.
#[derive(Drop)]
pub struct TaskDesk {
    tree: TaskTree,
    ready: Slicer,
    waits: Waits,
    channels: Terminals,
    display: Display,
}

impl Model for TaskDesk {
    ghost use Rattle.task_desk.specs.Desks as desks;

    ghost Value = { desks.Desk };

    ghost view = { λ desk. record { tree = desk.tree; ready = desk.ready; waits = desk.waits; channels = desk.channels; display = desk.display } };

    // So a task that lives and is not ready finds room in the ready list, and one that does not wait finds room to wait.
    ghost invariant = { λ desk. desks.AllLive desk.tree desk.ready × desks.AreWaiters desk.tree desk.waits };
}

impl TaskDesk {
    /// `UR` and `PUBLIC` live, none is ready, none waits for messages, no channel is coupled, and nothing is shown.
    pub fn opening(alloc: Global) -> Result<TaskDesk, NoMemory>
        ensures { IfOk result (λ made. made ≡ desks.opening) }
    {
        Ok(TaskDesk {
            tree: TaskTree::opening(alloc)?,
            ready: Slicer::new(alloc)?,
            waits: Waits::new(alloc)?,
            channels: Terminals::new(alloc)?,
            display: Display::new(alloc),
        })
    }

    /// Lets it go.
    pub fn let_go(self) {
        mem::drop(self);
    }

    /// What holds of every desk: the laws of its parts, and that the ready tasks live.
    pub fn law(&self)
        ensures { IsDesk self.now }
    {
        self.tree.law();
        self.ready.law();
        self.channels.law();
        self.display.law();
    }

    /// How many tasks live.
    pub fn tasks(&self) -> usize
        ensures { result ≡ length self.now.tree.tasks }
    {
        self.tree.count()
    }

    /// Whether a task lives.
    pub fn lives(&self, task: TaskNo) -> bool
        ensures { result ≡ trees.lives task self.now.tree }
    {
        self.tree.lives(task)
    }

    /// The number of the task of this name, or niltask.
    pub fn named(&self, name: &[u8]) -> TaskNo
        ensures { result ≡ trees.named name.now self.now.tree }
    {
        self.tree.named(name)
    }

    /// The name of a task; no bytes where it does not live.
    pub fn name(&self, task: TaskNo) -> &[u8]
        ensures { result.now ≡ trees.name task self.now.tree }
    {
        self.tree.name(task)
    }

    /// The father of a task, or niltask.
    pub fn father(&self, task: TaskNo) -> TaskNo
        ensures { result ≡ trees.father task self.now.tree }
    {
        self.tree.father(task)
    }

    /// The oldest son of a task, or niltask.
    pub fn son(&self, task: TaskNo) -> TaskNo
        ensures { result ≡ trees.son task self.now.tree }
    {
        self.tree.son(task)
    }

    /// The next younger son of the task's father, or niltask.
    pub fn brother(&self, task: TaskNo) -> TaskNo
        ensures { result ≡ trees.brother task self.now.tree }
    {
        self.tree.brother(task)
    }

    /// The place of a task in the order of the tree; `None` exactly where it does not live.
    pub fn place(&self, task: TaskNo) -> Option<usize>
        ensures place { (library : Library) → (owns : Lists Own) → result ≡ machine.place task (desks.system self.now library owns) }
        ensures within { IfSome result (λ place. place < length self.now.tree.tasks) }
    {
        self.tree.place(task)
    }

    /// A task with its descendants, each behind its own descendants, and sons from the oldest.
    pub fn family(&self, alloc: Global, task: TaskNo) -> Result<Vec<TaskNo>, NoMemory>
        ensures { IfOk result (λ family. family.items ≡ families.family task self.now.tree) }
    {
        task_tree::family(alloc, &self.tree, task)
    }

    /// `UR` and its descendants, each before its own descendants, with their levels, and sons from the oldest.
    pub fn listed(&self, alloc: Global) -> Result<Vec<Entry>, NoMemory>
        ensures { IfOk result (λ entries. entries.items ≡ families.listed (trees.number 1) self.now.tree) }
    {
        task_tree::listed(alloc, &self.tree, TaskNo(1))
    }

    /// The number of the next task that begins; `None` exactly where the last number was used.
    pub fn next(&self) -> Option<TaskNo>
        ensures { result ≡ trees.next_number self.now.tree }
    {
        self.tree.next()
    }

    /// Why no task of this name begins, as a stop.
    pub fn begin_stop(&self, name: &[u8]) -> Option<Stop>
        ensures { result ≡ ends.number_refusal (trees.refusal name.now self.now.tree) }
    {
        match self.tree.refusal(name) {
            Some(cause) => Some(as_stop(cause)),
            None => None,
        }
    }

    /// A son of a live task begins, which has the next number. Its name has 1 to 60 bytes.
    pub fn begin(&mut self, alloc: Global, name: &[u8], father: TaskNo) -> Result<TaskNo, NoMemory>
        requires live { trees.lives father self.old.tree ≡ true }
        requires named { is_name name.now ≡ true }
        requires free { ends.number_refusal (trees.refusal name.now self.old.tree) ≡ None }
        ensures number { IfOk result (λ task. task ≡ trees.next self.old.tree) }
        ensures begun { OnOk result (self.new ≡ desks.begun name.now father self.old) }
    {
        match self.tree.begin(alloc, name, father) {
            Ok(task) => Ok(task),
            Err(_) => Err(NoMemory),
        }
    }

    /// A task without sons stands in the tree, the ready list and among those that wait no more; it is neither `UR` nor `PUBLIC`.
    pub fn end(&mut self, task: TaskNo)
        requires live { trees.lives task self.old.tree ≡ true }
        requires childless { trees.son task self.old.tree ≡ niltask }
        requires later { 2 < task.0 }
        ensures { self.new ≡ desks.removed task self.old }
    {
        self.tree.end(task);
        self.ready.leave(task);
        self.waits.leave(task);
    }

    /// Whether a task stands in the ready list.
    pub fn is_ready(&self, task: TaskNo) -> bool
        ensures { result ≡ rotation.is_ready task self.now.ready }
    {
        self.ready.is_ready(task)
    }

    /// Whether a task lives and does not stand in the ready list.
    pub fn can_be_ready(&self, task: TaskNo) -> bool
        ensures { (library : Library) → (owns : Lists Own) → result ≡ machine.can_be_ready task (desks.system self.now library owns) }
    {
        self.tree.lives(task) && !self.ready.is_ready(task)
    }

    /// A task comes to the end of the ready list, where it lives and does not stand in it.
    pub fn back(&mut self, task: TaskNo)
        ensures { Makes (machine.on_system (machine.back task)) self.old self.new }
    {
        if self.can_be_ready(task) {
            self.law();
            self.ready.back(task);
        }
    }

    /// A task is no longer in the ready list.
    pub fn leave(&mut self, task: TaskNo)
        ensures { Makes (machine.on_system (machine.on_ready (rotation.without task))) self.old self.new }
    {
        self.ready.leave(task);
    }

    /// Takes the task whose turn is next out of the ready list; `None` exactly where none is ready, and then nothing changes.
    pub fn pop_ready(&mut self) -> Option<TaskNo>
        ensures task { result ≡ slice_get self.old.ready 0 }
        ensures others { Makes (machine.on_system (machine.on_ready (drop 1))) self.old self.new }
        ensures first { IfSome result (λ task. self.old.ready ≡ task ∷ self.new.ready) }
        ensures rest { Makes (machine.on_system (machine.on_ready (λ _. self.new.ready))) self.old self.new }
        ensures none { result ≡ None → (self.old.ready ≡ []) × (self.new ≡ self.old) }
    {
        self.ready.next()
    }

    /// Whether a task lives and waits for no message, so that it can.
    pub fn can_wait(&self, task: TaskNo) -> bool
        ensures { result ≡ (trees.lives task self.now.tree && not (rendezvous.is_waiting task self.now.waits)) }
    {
        self.tree.lives(task) && !self.waits.is_waiting(task)
    }

    /// Offers the message of a task, which lives and does not wait, to another: what becomes of it, and of those that wait.
    pub fn offer(&mut self, from: TaskNo, to: TaskNo, code: i16, queue: bool) -> Offer
        requires live { trees.lives from self.old.tree ≡ true }
        requires free { rendezvous.is_waiting from self.old.waits ≡ false }
        ensures answer { result ≡ rendezvous.offer from to queue self.old.waits }
        ensures after { Makes (machine.on_system (machine.on_waits (rendezvous.offered (record { from = from; to = to; code = code }) queue))) self.old self.new }
    {
        self.law();
        self.waits.offer(from, to, code, queue)
    }

    /// A task, which lives and does not wait, takes the message of the one that has called it longest, or waits for anybody's.
    pub fn wait_any(&mut self, task: TaskNo) -> Option<(TaskNo, i16)>
        requires live { trees.lives task self.old.tree ≡ true }
        requires free { rendezvous.is_waiting task self.old.waits ≡ false }
        ensures message { result ≡ option_map (λ c. (c.from, c.code)) (rendezvous.first_caller task self.old.waits) }
        ensures after { Makes (machine.on_system (machine.on_waits (rendezvous.waited task))) self.old self.new }
    {
        self.law();
        self.waits.wait_any(task)
    }

    /// A task, which lives and does not wait, waits for the answer of the one that took its message.
    pub fn wait_from(&mut self, task: TaskNo, of: TaskNo)
        requires live { trees.lives task self.old.tree ≡ true }
        requires free { rendezvous.is_waiting task self.old.waits ≡ false }
        ensures { Makes (machine.on_system (machine.on_waits (rendezvous.entered (record { task = task; of = Some of })))) self.old self.new }
    {
        self.law();
        self.waits.wait_from(task, of);
    }

    /// Those that wait for a task that has ended wait no longer: they are told, in their order.
    pub fn gone(&mut self, alloc: Global, task: TaskNo) -> Result<List<TaskNo>, NoMemory>
        ensures tasks { IfOk result (λ tasks. tasks ≡ rendezvous.waiting_for task self.old.waits) }
        ensures after { OnOk result (Makes (machine.on_system (machine.on_waits (rendezvous.released task))) self.old self.new) }
    {
        self.waits.gone(alloc, task)
    }

    /// A task waits no longer, and calls no more.
    pub fn stop_waiting(&mut self, task: TaskNo)
        ensures { Makes (machine.on_system (machine.on_waits (rendezvous.left task))) self.old self.new }
    {
        self.waits.leave(task);
    }

    /// The task that a channel is coupled to, or niltask.
    pub fn task_at(&self, channel: u8) -> TaskNo
        requires low { 1 ≤ channel }
        requires high { channel ≤ CHANNELS }
        ensures { result ≡ (terminal.channel channel self.now.channels).task }
    {
        self.channels.task_of(channel)
    }

    /// The channel's last task, or niltask.
    pub fn last_at(&self, channel: u8) -> TaskNo
        requires low { 1 ≤ channel }
        requires high { channel ≤ CHANNELS }
        ensures { result ≡ (terminal.channel channel self.now.channels).last }
    {
        self.channels.last(channel)
    }

    /// Notes the channel's last task.
    pub fn set_last(&mut self, channel: u8, task: TaskNo)
        requires low { 1 ≤ channel }
        requires high { channel ≤ CHANNELS }
        ensures { Makes (machine.on_system (machine.on_channels (terminal.with_last channel task))) self.old self.new }
    {
        self.channels.set_last(channel, task);
    }

    /// The channel that a task is coupled to; `None` exactly where there is none.
    pub fn channel_of(&self, task: TaskNo) -> Option<u8>
        ensures channel { result ≡ terminal.channel_of task self.now.channels }
        ensures within { IfSome result (λ channel. (1 ≤ channel) × (channel ≤ CHANNELS)) }
    {
        self.channels.channel_of(task)
    }

    /// Whether a channel is free, and a task coupled to none.
    pub fn can_couple(&self, channel: u8, task: TaskNo) -> bool
        requires low { 1 ≤ channel }
        requires high { channel ≤ CHANNELS }
        ensures { (library : Library) → (owns : Lists Own) → result ≡ machine.can_couple channel task (desks.system self.now library owns) }
    {
        self.channels.task_of(channel).is_nil() && self.channels.channel_of(task).is_none()
    }

    /// Why a task of the tree is coupled to no channel now, as a line: it does not live, or is coupled already.
    pub fn coupling_refusal(&self, task: TaskNo) -> Option<&'static [u8]>
        ensures { (library : Library) → (owns : Lists Own) →
            option_copied result ≡ supervisor.coupling_refusal task (desks.system self.now library owns) }
    {
        if !self.tree.lives(task) {
            return Some(b"Task gibt es nicht");
        }
        if self.channels.channel_of(task).is_some() {
            return Some(b"Task ist schon gekoppelt");
        }
        None
    }

    /// Couples a channel to a task, where it is free and the task coupled to none.
    pub fn couple(&mut self, channel: u8, task: TaskNo)
        requires low { 1 ≤ channel }
        requires high { channel ≤ CHANNELS }
        ensures { Makes (machine.on_system (machine.couple channel task)) self.old self.new }
    {
        if self.can_couple(channel, task) {
            self.channels.couple(channel, task);
        }
    }

    /// Uncouples a channel and empties its queue; the supervisor prompts there.
    pub fn uncouple(&mut self, channel: u8) -> Result<(), NoMemory>
        requires low { 1 ≤ channel }
        requires high { channel ≤ CHANNELS }
        ensures { OnOk result (Makes (machine.uncouple channel) self.old self.new) }
    {
        self.channels.uncouple(channel);
        self.display.say(channel, b"gib supervisor kommando :")?;
        Ok(())
    }

    /// Uncouples the channel of a task, where it is coupled.
    pub fn uncouple_task(&mut self, task: TaskNo) -> Result<(), NoMemory>
        ensures { OnOk result (Makes (machine.uncouple_at (terminal.channel_of task self.old.channels)) self.old self.new) }
    {
        match self.channels.channel_of(task) {
            Some(channel) => self.uncouple(channel),
            None => Ok(()),
        }
    }

    /// The supervisor is called at a channel: the task there is uncoupled, and is the channel's last task then.
    pub fn call(&mut self, channel: u8) -> Result<(), NoMemory>
        requires low { 1 ≤ channel }
        requires high { channel ≤ CHANNELS }
        ensures { OnOk result (Makes (supervisor.called (terminal.channel channel self.old.channels).task channel) self.old self.new) }
    {
        let task = self.channels.task_of(channel);
        if task.is_nil() {
            return self.supervisor_prompt(channel);
        }
        self.set_last(channel, task);
        self.uncouple(channel)
    }

    /// Whether as many lines wait at a channel as can.
    pub fn is_queue_full(&self, channel: u8) -> bool
        requires low { 1 ≤ channel }
        requires high { channel ≤ CHANNELS }
        ensures { result ≡ terminal.is_queue_full (terminal.channel channel self.now.channels) }
    {
        self.channels.is_queue_full(channel)
    }

    /// Whether a line waits at a channel.
    pub fn has_line(&self, channel: u8) -> bool
        requires low { 1 ≤ channel }
        requires high { channel ≤ CHANNELS }
        ensures { result ≡ terminal.has_line (terminal.channel channel self.now.channels) }
    {
        self.channels.has_line(channel)
    }

    /// A line comes to the end of a channel's queue, where it has room.
    pub fn queue_line(&mut self, channel: u8, line: Bytes)
        requires low { 1 ≤ channel }
        requires high { channel ≤ CHANNELS }
        requires short { length line ≤ LONGEST_LINE }
        ensures queued { Makes (machine.on_system (machine.on_channels (terminal.queued channel line))) self.old self.new }
        ensures full { terminal.is_queue_full (terminal.channel channel self.old.channels) ≡ true → self.new ≡ self.old }
    {
        if self.channels.is_queue_full(channel) {
            return;
        }
        let _ = self.channels.line_in(channel, line);
    }

    /// Takes the oldest line of a channel's queue; `None` exactly where none waits, and then nothing changes.
    pub fn unqueue(&mut self, channel: u8) -> Option<Bytes>
        requires low { 1 ≤ channel }
        requires high { channel ≤ CHANNELS }
        ensures served { (library : Library) → (owns : Lists Own) →
            input (Some channel) (desks.moment self.old library owns) ≡ desks.line_served result (desks.moment self.new library owns) }
        ensures line { result ≡ slice_get (terminal.channel channel self.old.channels).queue 0 }
        ensures queue { Makes (machine.on_system (machine.on_channels (terminal.unqueued channel))) self.old self.new }
        ensures first { let queue = (terminal.channel channel self.old.channels).queue in IfSome result (λ line. queue ≡ line ∷ drop 1 queue) }
        ensures none { result ≡ None → ((terminal.channel channel self.old.channels).queue ≡ []) × (self.new ≡ self.old) }
        ensures short { IfSome result (λ line. length line ≤ LONGEST_LINE) }
    {
        self.channels.line_back(channel)
    }

    /// Writes bytes at a channel, and a line end behind them where they end the line.
    pub fn write(&mut self, channel: u8, bytes: &[u8], ends: bool) -> Result<(), NoMemory>
        requires low { 1 ≤ channel }
        requires high { channel ≤ CHANNELS }
        ensures { OnOk result (Makes (machine.write channel bytes.now ends) self.old self.new) }
    {
        self.display.write(channel, bytes, ends)
    }

    /// Shows a prompt or a message at a channel.
    pub fn say(&mut self, channel: u8, bytes: &[u8]) -> Result<(), NoMemory>
        requires low { 1 ≤ channel }
        requires high { channel ≤ CHANNELS }
        ensures { OnOk result (Makes (machine.say channel bytes.now) self.old self.new) }
    {
        self.display.say(channel, bytes)
    }

    /// Shows a message at the channel of a task, where it is coupled.
    pub fn tell(&mut self, task: TaskNo, bytes: &[u8]) -> Result<(), NoMemory>
        ensures { OnOk result (Makes (machine.tell task bytes.now) self.old self.new) }
    {
        match self.channels.channel_of(task) {
            Some(channel) => self.display.say(channel, bytes),
            None => Ok(()),
        }
    }

    /// Prompts at the channel of a task, where it is coupled.
    pub fn prompt(&mut self, task: TaskNo) -> Result<(), NoMemory>
        ensures { OnOk result (Makes (machine.tell task machine.prompt) self.old self.new) }
    {
        self.tell(task, b"gib kommando :")
    }

    /// Prompts at a channel, as its task does.
    pub fn prompt_at(&mut self, channel: u8) -> Result<(), NoMemory>
        requires low { 1 ≤ channel }
        requires high { channel ≤ CHANNELS }
        ensures { OnOk result (Makes (machine.say channel machine.prompt) self.old self.new) }
    {
        self.display.say(channel, b"gib kommando :")
    }

    /// The supervisor prompts at a channel.
    pub fn supervisor_prompt(&mut self, channel: u8) -> Result<(), NoMemory>
        requires low { 1 ≤ channel }
        requires high { channel ≤ CHANNELS }
        ensures { OnOk result (Makes (machine.say channel machine.supervisor_prompt) self.old self.new) }
    {
        self.display.say(channel, b"gib supervisor kommando :")
    }

    /// The supervisor answers at a channel and prompts again.
    pub fn refuse(&mut self, channel: u8, answer: &[u8]) -> Result<(), NoMemory>
        requires low { 1 ≤ channel }
        requires high { channel ≤ CHANNELS }
        ensures { OnOk result (Makes (supervisor.refused channel answer.now) self.old self.new) }
    {
        self.say(channel, answer)?;
        self.supervisor_prompt(channel)
    }

    /// Closes the unfinished piece of each channel, from the first.
    pub fn close_all(&mut self) -> Result<(), NoMemory>
        ensures { OnOk result (Makes (machine.on_display shows.close_all) self.old self.new) }
    {
        self.display.close_all()
    }

    /// Nothing is shown any more, as at the beginning of an event.
    pub fn clear(&mut self)
        ensures { Makes (λ m. machine.at_event m.system) self.old self.new }
    {
        self.display.clear();
    }

    /// Adds what is shown as lines of output. In the `plain` form nothing stands before the pieces of channel 1.
    pub fn render(&self, plain: bool, out: &mut Bytes) -> Result<(), NoMemory>
        ensures { OnOk result (out.new ≡ out.old ++ shows.rendered plain self.now.display.shown) }
    {
        self.display.render(plain, out)
    }
}

/// The stop of a task that begins another.
fn as_stop(cause: BeginError) -> Stop
    ensures { result ≡ ends.as_stop cause }
{
    match cause {
        BeginError::NameTaken => Stop::TaskThere,
        BeginError::TreeFull => Stop::ManyTasks,
        BeginError::NumbersSpent => Stop::TaskNumbers,
        BeginError::NoMemory => Stop::ManyTasks,
    }
}
