//! What is asked of a system. Nothing changes.
ghost use Rattle.std.specs.Prelude.{◌≡◌, ◌<◌, ◌≤◌, ℕ, List as Lists, Some, slice_get, map, length, sum, option_map, IfOk, IfSome, OnOk};
ghost use Rattle.std.specs.Option.{option_copied};
ghost use Rattle.task_tree.specs.Tree as tree;
ghost use Rattle.task_tree.specs.Trees.{IsTree};
ghost use Rattle.task_tree.specs.Families.{family, listed};
ghost use Rattle.live_system.specs.Below.terminals.specs.Channels as channels;
ghost use Rattle.live_system.specs.Below.system_meaning.specs.Systems.{Moment, doing, requested, kept, runs};
ghost use Rattle.live_system.specs.Below.system_meaning.specs.Ends.{number_refusal};
ghost use Rattle.live_system.specs.Below.system_meaning.specs.Stores.{entering_refusal, new_store};
ghost use Rattle.live_system.specs.Below.system_meaning.specs.Tasks.{Own};
ghost use Rattle.eu_base.specs.declared.value.Kind.{Kind};
ghost use Rattle.live_system.specs.Below.units.specs.Library.{Library};
ghost use Rattle.live_system.specs.Below.task_desk.specs.Desks.{system};
ghost use Rattle.live_system.specs.Below.live_tasks.specs.Tasks.{Stand};
ghost use Rattle.live_system.specs.Below.system_meaning.specs.Monitor.{directory_of};
ghost use Rattle.live_system.specs.Below.system_meaning.specs.Supervisor.{coupling_refusal, state_of, spaces_of};
ghost use Rattle.live_system.specs.What.{what_of, is_input};
ghost use Rattle.live_system.specs.Machines.{StandsAt};

use crate::system::System;
use crate::what::What;
use eu_base::{Bytes, List, NoMemory, Request, Stop, is_name};
use live_packets::{TaskDesk, Tasks, place_of};
use std::alloc::Global;
use task_numbers::TaskNo;
use task_tree::Entry;

impl System {
    /// The task at a channel.
    pub fn task_at(&self, channel: u8) -> TaskNo
        requires low { 1 ≤ channel }
        requires high { channel ≤ 4 }
        ensures { (m : Moment) → StandsAt self.now m → result ≡ (channels.channel channel m.system.shared.channels).task }
    {
        self.desk.task_at(channel)
    }

    /// The last task of a channel.
    pub fn last_at(&self, channel: u8) -> TaskNo
        requires low { 1 ≤ channel }
        requires high { channel ≤ 4 }
        ensures { (m : Moment) → StandsAt self.now m → result ≡ (channels.channel channel m.system.shared.channels).last }
    {
        self.desk.last_at(channel)
    }

    /// The channel, from 1 to 4, that a task is coupled to.
    pub fn channel_of(&self, task: TaskNo) -> Option<u8>
        ensures channel { (m : Moment) → StandsAt self.now m → result ≡ channels.channel_of task m.system.shared.channels }
        ensures within { IfSome result (λ channel. (1 ≤ channel) × (channel ≤ 4)) }
    {
        self.desk.channel_of(task)
    }

    /// Why a task cannot be coupled to a channel.
    pub fn coupling_refusal(&self, task: TaskNo) -> Option<&'static [u8]>
        ensures { (m : Moment) → StandsAt self.now m → option_map (λ answer. answer.now) result ≡ coupling_refusal task m.system }
    {
        self.desk.coupling_refusal(task)
    }

    /// Whether the queue of a channel has no room.
    pub fn is_queue_full(&self, channel: u8) -> bool
        requires low { 1 ≤ channel }
        requires high { channel ≤ 4 }
        ensures { (m : Moment) → StandsAt self.now m → result ≡ channels.is_queue_full (channels.channel channel m.system.shared.channels) }
    {
        self.desk.is_queue_full(channel)
    }

    /// What a task does.
    pub fn what(&self, task: TaskNo) -> What
        ensures { (m : Moment) → StandsAt self.now m → result ≡ what_of (doing task m.system) }
    {
        match place_of(&self.desk, &self.tasks, task) {
            None => What::Gone,
            Some(place) => what_at(&self.tasks, place),
        }
    }

    /// Whether a task runs a command.
    pub fn runs(&self, task: TaskNo) -> bool
        ensures { (m : Moment) → StandsAt self.now m → result ≡ runs task m.system }
    {
        match place_of(&self.desk, &self.tasks, task) {
            None => false,
            Some(place) => self.tasks.is_running(place),
        }
    }

    /// A copy of the request for which a task waits.
    pub fn requested(&self, alloc: Global, task: TaskNo) -> Result<Option<Request>, NoMemory>
        ensures { IfOk result (λ request. (m : Moment) → StandsAt self.now m → request ≡ requested task m.system) }
    {
        match asked(&self.desk, &self.tasks, task) {
            None => Ok(None),
            Some(request) => Ok(Some(request.try_clone(alloc)?)),
        }
    }

    /// Whether a task waits for a line.
    pub fn awaits_line(&self, task: TaskNo) -> bool
        ensures { (m : Moment) → StandsAt self.now m → result ≡ is_input (requested task m.system) }
    {
        is_input(asked(&self.desk, &self.tasks, task))
    }

    /// Whether a task lives.
    pub fn lives(&self, task: TaskNo) -> bool
        ensures { (m : Moment) → StandsAt self.now m → result ≡ tree.lives task m.system.shared.tree }
    {
        self.desk.lives(task)
    }

    /// The task of a name.
    pub fn named(&self, name: &[u8]) -> TaskNo
        ensures { (m : Moment) → StandsAt self.now m → result ≡ tree.named name.now m.system.shared.tree }
    {
        self.desk.named(name)
    }

    /// The name of a task.
    pub fn name(&self, task: TaskNo) -> &[u8]
        ensures { (m : Moment) → StandsAt self.now m → result.now ≡ tree.name task m.system.shared.tree }
    {
        self.desk.name(task)
    }

    /// The father of a task.
    pub fn father(&self, task: TaskNo) -> TaskNo
        ensures { (m : Moment) → StandsAt self.now m → result ≡ tree.father task m.system.shared.tree }
    {
        self.desk.father(task)
    }

    /// The oldest son of a task.
    pub fn son(&self, task: TaskNo) -> TaskNo
        ensures { (m : Moment) → StandsAt self.now m → result ≡ tree.son task m.system.shared.tree }
    {
        self.desk.son(task)
    }

    /// The next younger brother of a task.
    pub fn brother(&self, task: TaskNo) -> TaskNo
        ensures { (m : Moment) → StandsAt self.now m → result ≡ tree.brother task m.system.shared.tree }
    {
        self.desk.brother(task)
    }

    /// Why the tree takes no task of a name.
    pub fn tree_refusal(&self, name: &[u8]) -> Option<Stop>
        ensures { (m : Moment) → StandsAt self.now m → result ≡ number_refusal (tree.refusal name.now m.system.shared.tree) }
    {
        self.desk.begin_stop(name)
    }

    /// The number of the next task that begins, where one is left.
    pub fn next(&self) -> Option<TaskNo>
        ensures { (m : Moment) → StandsAt self.now m → result ≡ tree.next_number m.system.shared.tree }
    {
        self.desk.next()
    }

    /// A task behind all its descendants, in the order in which they end.
    pub fn family(&self, alloc: Global, task: TaskNo) -> Result<Vec<TaskNo>, NoMemory>
        ensures family { IfOk result (λ tasks. (m : Moment) → StandsAt self.now m → tasks.items ≡ family task m.system.shared.tree) }
        ensures tree { OnOk result ((m : Moment) → StandsAt self.now m → IsTree m.system.shared.tree) }
    {
        self.desk.law();
        self.desk.family(alloc, task)
    }

    /// UR and its descendants, each father before its sons.
    pub fn listed(&self, alloc: Global) -> Result<Vec<Entry>, NoMemory>
        ensures { IfOk result (λ entries. (m : Moment) → StandsAt self.now m → entries.items ≡ listed (record { 0 = 1 }) m.system.shared.tree) }
    {
        self.desk.listed(alloc)
    }

    /// Whether a task is idle, entering, running or waiting, as it is told.
    pub fn state(&self, task: TaskNo) -> &'static [u8]
        ensures { (m : Moment) → StandsAt self.now m → result.now ≡ state_of (doing task m.system) }
    {
        match place_of(&self.desk, &self.tasks, task) {
            None => b"",
            Some(place) => self.tasks.state(place),
        }
    }

    /// How many tasks live.
    pub fn tasks(&self) -> usize
        ensures { (m : Moment) → StandsAt self.now m → result ≡ length m.system.shared.tree.tasks }
    {
        self.desk.tasks()
    }

    /// How many data spaces live.
    pub fn spaces(&self) -> usize
        ensures { (m : Moment) → StandsAt self.now m → result ≡ sum (map spaces_of m.system.owns) }
    {
        self.tasks.spaces()
    }

    /// How many packets live.
    pub fn packets(&self) -> usize
        ensures { (m : Moment) → StandsAt self.now m → result ≡ length m.system.shared.library.live }
    {
        self.packets.count()
    }

    /// Why no text can be entered under a name.
    pub fn entering_refusal(&self, task: TaskNo, name: &[u8]) -> Option<Stop>
        ensures { (m : Moment) → StandsAt self.now m → result ≡ entering_refusal name.now (kept task m.system) }
    {
        match place_of(&self.desk, &self.tasks, task) {
            None => new_refusal(name),
            Some(place) => self.tasks.entering_refusal(place, name),
        }
    }

    /// The names of a task's directory, in order.
    pub fn names(&self, alloc: Global, task: TaskNo) -> Result<List<Bytes>, NoMemory>
        ensures { IfOk result (λ names. (m : Moment) → StandsAt self.now m → names ≡ directory_of (kept task m.system)) }
    {
        match place_of(&self.desk, &self.tasks, task) {
            None => Ok(List::new(alloc)),
            Some(place) => self.tasks.names(alloc, place),
        }
    }
}

// What a task does.
fn what_at(tasks: &Tasks, place: usize) -> What
    requires task { place < length tasks.now.tasks }
    ensures { (kinds_of : Lists ℕ → Lists Kind) (owns : Lists Own) (own : Own) → Stand kinds_of tasks.now owns → slice_get owns place ≡ Some own
        → result ≡ what_of (Some own.doing) }
{
    if tasks.is_idle(place) {
        What::Idle
    } else if tasks.is_entering(place) {
        What::Entering
    } else {
        What::Running
    }
}

// The request for which a task waits, lent.
pub(crate) fn asked<'a>(desk: &TaskDesk, tasks: &'a Tasks, task: TaskNo) -> Option<&'a Request>
    ensures { length tasks.now.tasks ≡ length desk.now.tree.tasks → (kinds_of : Lists ℕ → Lists Kind) (library : Library) (owns : Lists Own)
        → Stand kinds_of tasks.now owns → option_copied result ≡ requested task (system desk.now library owns) }
{
    match place_of(desk, tasks, task) {
        None => None,
        Some(place) => tasks.asked(place),
    }
}

// Whether a request is for a line.
fn is_input(request: Option<&Request>) -> bool
    ensures { result ≡ is_input (option_copied request.entry) }
{
    matches!(request, Some(Request::Input))
}

// Why no text can be entered under a name, in a task that keeps nothing.
fn new_refusal(name: &[u8]) -> Option<Stop>
    ensures { result ≡ entering_refusal name.now new_store }
{
    if is_name(name) {
        None
    } else {
        Some(Stop::BadName)
    }
}
