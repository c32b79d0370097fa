//! Messages between tasks.
ghost use Rattle.std.specs.Prelude.{◌≡◌, ◌≢◌, ◌∷◌, [], true, false, Some, None, option_map, IfOk, OnOk};
ghost use Rattle.std.specs.Option.{option_copied};
ghost use Rattle.eu_base.specs.declared.request.Request.{Request as Requests};
ghost use Rattle.eu_base.specs.declared.request.Reply.TheVariants.{Taken};
ghost use Rattle.eu_base.specs.Requests.{plain, sent_by};
ghost use Rattle.eu_base.specs.DataSpaces.{Forgets, heads_of, is_live, without_space};
ghost use Rattle.eu_base.specs.SpaceOperations.{room_refusal};
ghost use Rattle.message_wait.specs.Rendezvous as rendezvous;
ghost use Rattle.task_tree.specs.Tree as tree;
ghost use Rattle.live_system.specs.Below.system_meaning.specs.Systems.{Moment, given, kept, on_system, on_waits, requested, woken};
ghost use Rattle.live_system.specs.Below.system_meaning.specs.Ends.{freed_by, no_task};
ghost use Rattle.live_system.specs.Below.system_meaning.specs.Serving.{content, message, space_number};
ghost use Rattle.live_system.specs.Machines.{StandsAt};
ghost use Rattle.live_system.specs.Steps.{woken_each};

use crate::looks::asked;
use crate::system::System;
use eu_base::{List, NoMemory, Reply, Request, Stop};
use live_packets::place_of;
use message_wait::Offer;
use task_numbers::{SpaceNo, TaskNo};

impl System {
    /// Whether a data space of a task lives.
    pub fn has_space(&self, task: TaskNo, space: u32) -> bool
        ensures { (m : Moment) → StandsAt self.now m → result ≡ is_live (space_number space) (kept task m.system).spaces }
    {
        match place_of(&self.desk, &self.tasks, task) {
            Some(place) => self.tasks.has_space(place, SpaceNo(space)),
            None => false,
        }
    }

    /// Why a task has no room for a data space more.
    pub fn room_refusal(&self, task: TaskNo) -> Option<Stop>
        ensures { (m : Moment) → StandsAt self.now m → result ≡ room_refusal (heads_of (kept task m.system).spaces) }
    {
        match place_of(&self.desk, &self.tasks, task) {
            Some(place) => self.tasks.room_refusal(place),
            None => None,
        }
    }

    /// Why it has none in the place of one that lives.
    pub fn refusal_without(&self, task: TaskNo, space: u32) -> Option<Stop>
        ensures { (m : Moment) → is_live (space_number space) (kept task m.system).spaces ≡ true → StandsAt self.now m →
            result ≡ room_refusal (heads_of (without_space (space_number space) (kept task m.system).spaces)) }
    {
        match place_of(&self.desk, &self.tasks, task) {
            Some(place) => self.tasks.refusal_without(place),
            None => None,
        }
    }

    /// The request for which a task waits, lent.
    pub fn asked(&self, task: TaskNo) -> Option<&Request>
        ensures { (m : Moment) → StandsAt self.now m → option_copied result ≡ requested task m.system }
    {
        asked(&self.desk, &self.tasks, task)
    }

    /// Offers the message of a task, which lives and does not wait, to another.
    pub fn offer(&mut self, from: TaskNo, to: TaskNo, code: i16, queue: bool) -> Offer
        ensures answer { (m : Moment) → tree.lives from m.system.shared.tree ≡ true → rendezvous.is_waiting from m.system.shared.waits ≡ false →
            StandsAt self.old m → result ≡ rendezvous.offer from to queue m.system.shared.waits }
        ensures after { (m : Moment) → tree.lives from m.system.shared.tree ≡ true → rendezvous.is_waiting from m.system.shared.waits ≡ false →
            StandsAt self.old m → StandsAt self.new (on_system (on_waits (rendezvous.offered (record { from = from; to = to; code = code }) queue)) m) }
    {
        if self.desk.can_wait(from) {
            self.desk.offer(from, to, code, queue)
        } else {
            Offer::NotReady
        }
    }

    /// A task, which lives and does not wait, takes the message of the one that has called it longest, or waits for anybody's.
    pub fn wait_any(&mut self, task: TaskNo) -> Option<(TaskNo, i16)>
        ensures message { (m : Moment) → tree.lives task m.system.shared.tree ≡ true → rendezvous.is_waiting task m.system.shared.waits ≡ false →
            StandsAt self.old m → result ≡ option_map (λ c. (c.from, c.code)) (rendezvous.first_caller task m.system.shared.waits) }
        ensures after { (m : Moment) → tree.lives task m.system.shared.tree ≡ true → rendezvous.is_waiting task m.system.shared.waits ≡ false →
            StandsAt self.old m → StandsAt self.new (on_system (on_waits (rendezvous.waited task)) m) }
    {
        if self.desk.can_wait(task) {
            self.desk.wait_any(task)
        } else {
            None
        }
    }

    /// A task, which lives and does not wait, waits for the answer of the one that took its message.
    pub fn wait_from(&mut self, task: TaskNo, of: TaskNo)
        ensures { (m : Moment) → tree.lives task m.system.shared.tree ≡ true → rendezvous.is_waiting task m.system.shared.waits ≡ false →
            StandsAt self.old m → StandsAt self.new (on_system (on_waits (rendezvous.entered (record { task = task; of = Some of }))) m) }
    {
        if self.desk.can_wait(task) {
            self.desk.wait_from(task, of);
        }
    }

    /// Those that wait for a task that has ended wait no longer: they are told, in their order.
    pub fn gone(&mut self, task: TaskNo) -> Result<List<TaskNo>, NoMemory>
        ensures tasks { IfOk result (λ tasks. (m : Moment) → StandsAt self.old m → tasks ≡ rendezvous.waiting_for task m.system.shared.waits) }
        ensures after { OnOk result ((m : Moment) → StandsAt self.old m → StandsAt self.new (on_system (on_waits (rendezvous.released task)) m)) }
    {
        self.desk.gone(self.alloc, task)
    }

    /// And get the receipt that no task answers, and are ready.
    pub(crate) fn free(&mut self, task: TaskNo) -> Result<(), NoMemory>
        ensures { OnOk result ((m : Moment) → StandsAt self.old m → StandsAt self.new (on_system (freed_by task) m)) }
    {
        let waiting = self.gone(task)?;
        self.wake_each(waiting.as_slice())?;
        Ok(())
    }

    // Tasks that wait are told that no task answers, one after another.
    fn wake_each(&mut self, tasks: &[TaskNo]) -> Result<(), NoMemory>
        ensures { OnOk result ((m : Moment) → StandsAt self.old m → StandsAt self.new (woken_each tasks.now m)) }
    {
        for task in tasks {
            self.wake(*task)?;
        }
        Ok(())
    }

    // One is told so, and is ready.
    fn wake(&mut self, task: TaskNo) -> Result<(), NoMemory>
        ensures { OnOk result ((m : Moment) → StandsAt self.old m → StandsAt self.new (on_system (woken task no_task) m)) }
    {
        self.reply(task, Reply::Receipt(-1))?;
        self.back(task);
        Ok(())
    }

    /// A task waits no longer, and calls no more.
    pub fn stop_waiting(&mut self, task: TaskNo)
        ensures { (m : Moment) → StandsAt self.old m → StandsAt self.new (on_system (on_waits (rendezvous.left task)) m) }
    {
        self.desk.stop_waiting(task);
    }

    /// The message of a task's request is taken by another, which asks for one and has room: both get their answers.
    pub fn hand(&mut self, from: TaskNo, to: TaskNo, space: u32, code: i16) -> Result<(), NoMemory>
        ensures { OnOk result ((m : Moment) (request asked : Requests) → from.0 ≢ to.0 → requested from m.system ≡ Some request →
            sent_by request ≡ Forgets (space_number space) ∷ [] → is_live (space_number space) (kept from m.system).spaces ≡ true →
            requested to m.system ≡ Some asked → room_refusal (heads_of (kept to m.system).spaces) ≡ None → StandsAt self.old m →
            StandsAt self.new (on_system (given to (message code from (content from space m.system) to m.system)) (on_system (given from (plain Taken)) m))) }
    {
        let Some(sender) = place_of(&self.desk, &self.tasks, from) else {
            return Ok(());
        };
        let Some(receiver) = place_of(&self.desk, &self.tasks, to) else {
            return Ok(());
        };
        self.tasks
            .hand(sender, receiver, SpaceNo(space), code, from)
    }
}
