//! Tasks that wait for each other.
ghost use Rattle.std.specs.Prelude.{◌≡◌, ◌≢◌, ◌+◌, ◌<◌, ◌≤◌, ◌&&◌, true, false, None, Some, List as Lists, [], ◌∷◌, ◌++◌, length, option_map, position, slice_get, IfErr, IfOk, IfSome, OnErr, OnOk};
ghost use Rattle.std.specs.List.{list_any, position_or_len};
ghost use Rattle.task_numbers.specs.Numbers.{is_task};
ghost use Rattle.message_wait.specs.Rendezvous as spec;
ghost use Rattle.message_wait.specs.Rows.{IsRendezvous, has_place, is_last};

use containers::{List, NoMemory};
use eu_base::ReviveError;
use std::alloc::Global;
use std::marker::Model;
use task_numbers::{TASKS, TaskNo};

/// A task whose message waits until another task takes it.
#[derive(Clone, Copy, PartialEq, Eq)]
pub struct Caller {
    /// The task that calls.
    pub from: TaskNo,
    /// The task that it calls.
    pub to: TaskNo,
    /// The code of its message.
    pub code: i16,
}

/// A task that waits for a message.
#[derive(Clone, Copy, PartialEq, Eq)]
pub struct Receiver {
    /// The task that waits.
    pub task: TaskNo,
    /// The task whose message it takes; `None` where it takes anybody's.
    pub of: Option<TaskNo>,
}

/// What became of a message.
#[derive(Clone, Copy, PartialEq, Eq)]
pub enum Offer {
    /// The other task took it, and waits no longer.
    Taken,
    /// The other task is not ready to receive it.
    NotReady,
    /// It waits with its sender.
    Queued,
}

/// The callers in order of arrival, and the receivers by number. Room for all tasks was taken at the beginning, so that no
/// other call but `gone` takes any.
#[derive(Drop)]
pub struct Waits {
    callers: Vec<Caller>,
    receivers: Vec<Receiver>,
}

impl Model for Waits {
    ghost use Rattle.std.specs.Prelude.{◌≤◌, vec_capacity};
    ghost use Rattle.task_numbers.specs.declared.limits.TheConstants.{TASKS};
    ghost use Rattle.message_wait.specs.Rendezvous as spec;

    ghost Value = { spec.Waits };

    ghost view = { λ w. record { callers = w.callers.items; receivers = w.receivers.items } };

    ghost invariant = { λ w. (TASKS ≤ vec_capacity w.callers) × (TASKS ≤ vec_capacity w.receivers) × spec.AreByNumber w.receivers.items };
}

impl Waits {
    /// Nobody waits.
    pub fn new(alloc: Global) -> Result<Waits, NoMemory>
        ensures { IfOk result (λ made. made ≡ spec.nobody) }
    {
        let callers = Vec::with_capacity(alloc, TASKS)?;
        let receivers = Vec::with_capacity(alloc, TASKS)?;
        Ok(Waits { callers, receivers })
    }

    /// Those that wait, with these callers in order of arrival and these receivers by number. `NotSystem` comes exactly where they
    /// are more than 16, or one of them waits twice, or the receivers do not stand by number. It takes the room for all tasks.
    pub fn of(
        alloc: Global,
        callers: &[Caller],
        receivers: &[Receiver],
    ) -> Result<Waits, ReviveError>
        ensures rows { IfOk result (λ made. made ≡ record { callers = callers.now; receivers = receivers.now }) }
        ensures fine { IfOk result IsRendezvous }
        ensures refused { IfErr result (λ cause. cause ≢ ReviveError.NoMemory
            → IsRendezvous (record { callers = callers.now; receivers = receivers.now }) → ⊥) }
    {
        let mut made = match Waits::of_callers(alloc, callers) {
            Ok(made) => made,
            Err(cause) => return Err(cause),
        };
        for receiver in receivers {
            if !made.can_follow(receiver.task) {
                return Err(ReviveError::NotSystem);
            }
            made.add_receiver(*receiver);
        }
        Ok(made)
    }

    fn of_callers(alloc: Global, callers: &[Caller]) -> Result<Waits, ReviveError>
        ensures rows { IfOk result (λ made. made ≡ record { callers = callers.now; receivers = [] }) }
        ensures fine { IfOk result IsRendezvous }
        ensures refused { IfErr result (λ cause. cause ≢ ReviveError.NoMemory
            → (receivers : Lists Receiver) → IsRendezvous (record { callers = callers.now; receivers = receivers }) → ⊥) }
    {
        let mut made = Waits::new(alloc)?;
        for caller in callers {
            if !made.has_place(caller.from) {
                return Err(ReviveError::NotSystem);
            }
            made.add_caller(*caller);
        }
        Ok(made)
    }

    /// The caller at a place by arrival, from 0: its number, that of the task that it calls, and the code; `None` exactly past the
    /// last.
    pub fn row(&self, place: u32) -> Option<(TaskNo, TaskNo, i16)>
        ensures { result ≡ option_map (λ c. (c.from, c.to, c.code)) (slice_get self.now.callers place) }
    {
        match self.callers.get(place as usize) {
            Some(caller) => Some((caller.from, caller.to, caller.code)),
            None => None,
        }
    }

    /// The receiver at a place by number, from 0; `None` exactly past the last.
    pub fn receiver(&self, place: u32) -> Option<Receiver>
        ensures { result ≡ slice_get self.now.receivers place }
    {
        self.receivers.get(place as usize).copied()
    }

    /// Offers a message to a task. `Taken` exactly where that is ready to receive it, and then waits no longer; else the
    /// sender waits with it where `queue`, and nothing changes where not.
    pub fn offer(&mut self, from: TaskNo, to: TaskNo, code: i16, queue: bool) -> Offer
        requires free { spec.is_waiting from self.old ≡ false }
        requires room { length self.old.callers + length self.old.receivers < TASKS }
        ensures answer { result ≡ spec.offer from to queue self.old }
        ensures after { self.new ≡ spec.offered (record { from = from; to = to; code = code }) queue self.old }
    {
        if self.is_ready(to, from) {
            self.receive(to);
            Offer::Taken
        } else if queue {
            self.callers.push_reserved(Caller { from, to, code });
            Offer::Queued
        } else {
            Offer::NotReady
        }
    }

    /// Takes the message of the task that has called this one longest, which then calls no more: its number and the code. `None`
    /// exactly where no task calls; then this one waits for anybody's message.
    pub fn wait_any(&mut self, task: TaskNo) -> Option<(TaskNo, i16)>
        requires free { spec.is_waiting task self.old ≡ false }
        requires room { length self.old.callers + length self.old.receivers < TASKS }
        ensures message { result ≡ option_map (λ c. (c.from, c.code)) (spec.first_caller task self.old) }
        ensures after { self.new ≡ spec.waited task self.old }
    {
        match self.first_call(task) {
            Some(place) => {
                let caller = self.callers.remove(place);
                Some((caller.from, caller.code))
            }
            None => {
                self.enter(task, None);
                None
            }
        }
    }

    /// A task whose message was taken waits for the answer of the one that took it.
    pub fn wait_from(&mut self, task: TaskNo, of: TaskNo)
        requires free { spec.is_waiting task self.old ≡ false }
        requires room { length self.old.callers + length self.old.receivers < TASKS }
        ensures { self.new ≡ spec.entered (record { task = task; of = Some of }) self.old }
    {
        self.enter(task, Some(of));
    }

    /// A task has ended: those that waited for it wait no longer. They are first those that waited for its answer, by number,
    /// then its callers in order of arrival. A refusal changes nothing.
    pub fn gone(&mut self, alloc: Global, task: TaskNo) -> Result<List<TaskNo>, NoMemory>
        ensures tasks { IfOk result (λ tasks. tasks ≡ spec.waiting_for task self.old) }
        ensures after { OnOk result (self.new ≡ spec.released task self.old) }
        ensures unchanged { OnErr result (self.new ≡ self.old) }
    {
        let tasks = self.waiting_for(alloc, task)?;
        self.release(task);
        self.callers.retain(|caller| !caller.to.is(task));
        Ok(tasks)
    }

    /// A task waits no longer and calls no more; those that wait for it go on waiting.
    pub fn leave(&mut self, task: TaskNo)
        ensures { self.new ≡ spec.left task self.old }
    {
        self.receive(task);
        self.callers.retain(|caller| !caller.from.is(task));
    }

    /// What holds of all that wait: the receivers stand by number.
    pub fn law(&self)
        ensures { spec.AreByNumber self.now.receivers }
    {
        let _receivers = &self.receivers;
    }

    /// Whether a task waits: for a message, or with its own.
    pub fn is_waiting(&self, task: TaskNo) -> bool
        ensures { result ≡ spec.is_waiting task self.now }
    {
        self.is_calling(task) || self.is_receiving(task)
    }

    fn has_place(&self, task: TaskNo) -> bool
        ensures { result ≡ has_place task self.now }
    {
        self.callers.len() < TASKS
            && self.receivers.len() < TASKS - self.callers.len()
            && !self.is_waiting(task)
    }

    fn can_follow(&self, task: TaskNo) -> bool
        ensures { result ≡ (has_place task self.now && is_last task self.now.receivers) }
    {
        self.has_place(task) && self.is_last(task)
    }

    fn is_last(&self, task: TaskNo) -> bool
        ensures { result ≡ is_last task self.now.receivers }
    {
        self.receivers
            .iter()
            .all(|receiver| receiver.task.0 <= task.0)
    }

    fn add_caller(&mut self, caller: Caller)
        requires { length self.old.callers < TASKS }
        ensures { self.new ≡ record self.old { callers = self.old.callers ++ caller ∷ [] } }
    {
        self.callers.push_reserved(caller);
    }

    fn add_receiver(&mut self, receiver: Receiver)
        requires room { length self.old.receivers < TASKS }
        requires last { is_last receiver.task self.old.receivers ≡ true }
        ensures { self.new ≡ record self.old { receivers = self.old.receivers ++ receiver ∷ [] } }
    {
        self.receivers.push_reserved(receiver);
    }

    fn is_calling(&self, task: TaskNo) -> bool
        ensures { result ≡ list_any (λ c. is_task c.from task) self.now.callers }
    {
        self.callers.iter().any(|caller| caller.from.is(task))
    }

    fn is_receiving(&self, task: TaskNo) -> bool
        ensures { result ≡ list_any (λ r. is_task r.task task) self.now.receivers }
    {
        self.receivers.iter().any(|receiver| receiver.task.is(task))
    }

    fn first_call(&self, task: TaskNo) -> Option<usize>
        ensures place { result ≡ spec.first_call task self.now }
        ensures within { IfSome result (λ place. place < length self.now.callers) }
    {
        self.callers.iter().position(|caller| caller.to.is(task))
    }

    fn enter(&mut self, task: TaskNo, of: Option<TaskNo>)
        requires room { length self.old.receivers < TASKS }
        ensures { self.new ≡ spec.entered (record { task = task; of = of }) self.old }
    {
        let place = self.place_of(task);
        let _entered = self.receivers.insert(place, Receiver { task, of });
    }

    fn place_of(&self, task: TaskNo) -> usize
        ensures place { result ≡ position_or_len (spec.is_after task) self.now.receivers }
        ensures within { result ≤ length self.now.receivers }
    {
        match self.first_after(task) {
            Some(place) => place,
            None => self.receivers.len(),
        }
    }

    fn first_after(&self, task: TaskNo) -> Option<usize>
        ensures { result ≡ position (spec.is_after task) self.now.receivers }
    {
        self.receivers
            .iter()
            .position(|receiver| task.0 < receiver.task.0)
    }

    fn receive(&mut self, task: TaskNo)
        ensures { self.new ≡ spec.received task self.old }
    {
        self.receivers.retain(|receiver| !receiver.task.is(task));
    }

    fn release(&mut self, task: TaskNo)
        ensures { self.new ≡ spec.answered task self.old }
    {
        self.receivers.retain(|receiver| !is_answer(task, receiver));
    }

    fn waiting_for(&self, alloc: Global, task: TaskNo) -> Result<List<TaskNo>, NoMemory>
        ensures { IfOk result (λ tasks. tasks ≡ spec.waiting_for task self.now) }
    {
        let mut tasks = self.answered_by(alloc, task)?;
        let callers = self.callers_of(alloc, task)?;
        tasks.extend_from_slice(&callers)?;
        Ok(List::from_vec(tasks))
    }

    fn answered_by(&self, alloc: Global, task: TaskNo) -> Result<Vec<TaskNo>, NoMemory>
        ensures { IfOk result (λ tasks. tasks.items ≡ spec.answered_by task self.now) }
    {
        Ok(
            self.receivers
                .iter()
                .filter(|receiver| is_answer(task, receiver))
                .map(|receiver| receiver.task)
                .collect(alloc)?,
        )
    }

    fn callers_of(&self, alloc: Global, task: TaskNo) -> Result<Vec<TaskNo>, NoMemory>
        ensures { IfOk result (λ tasks. tasks.items ≡ spec.callers_of task self.now) }
    {
        Ok(
            self.callers
                .iter()
                .filter(|caller| caller.to.is(task))
                .map(|caller| caller.from)
                .collect(alloc)?,
        )
    }

    fn is_ready(&self, to: TaskNo, from: TaskNo) -> bool
        ensures { result ≡ spec.is_ready to from self.now }
    {
        self.receivers
            .iter()
            .any(|receiver| is_open(to, from, receiver))
    }
}

fn is_open(to: TaskNo, from: TaskNo, receiver: &Receiver) -> bool
    ensures { result ≡ spec.is_open to from receiver.now }
{
    receiver.task.is(to)
        && match receiver.of {
            None => true,
            Some(other) => other.is(from),
        }
}

fn is_answer(task: TaskNo, receiver: &Receiver) -> bool
    ensures { result ≡ spec.is_answer task receiver.now }
{
    match receiver.of {
        None => false,
        Some(other) => other.is(task),
    }
}
