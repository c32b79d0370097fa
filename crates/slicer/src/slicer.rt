//! The ready tasks in rotation.
ghost use Rattle.std.specs.Prelude.{◌≡◌, ◌≢◌, ◌<◌, false, [], length, drop, slice_get, IfErr, IfOk};
ghost use Rattle.slicer.specs.Rotation.{IsRotation, at_back, has_place, is_ready, without};

use containers::NoMemory;
use eu_base::ReviveError;
use std::alloc::Global;
use std::collections::VecDeque;
use std::marker::Model;
use task_numbers::{TASKS, TaskNo};

/// The ready tasks, which contracts see as the list of their numbers, that of the next turn first.
#[derive(Drop)]
pub struct Slicer {
    ready: VecDeque<TaskNo>,
}

impl Model for Slicer {
    ghost use Rattle.std.specs.Prelude.{List, ◌≤◌};
    ghost use Rattle.std.specs.VecDeque.{deque_capacity};
    ghost use Rattle.task_numbers.specs.declared.number.TaskNo.{TaskNo};
    ghost use Rattle.task_numbers.specs.declared.limits.TheConstants.{TASKS};

    ghost Value = { List TaskNo };

    ghost view = { λ slicer. slicer.ready.items };

    ghost use Rattle.slicer.specs.Rotation.{IsRotation};

    // Room for all tasks was taken at the beginning.
    ghost invariant = { λ slicer. (TASKS ≤ deque_capacity slicer.ready) × IsRotation slicer.ready.items };
}

impl Slicer {
    /// No task is ready. It takes the room for all tasks, so that no other call takes any.
    pub fn new(alloc: Global) -> Result<Slicer, NoMemory>
        ensures { IfOk result (λ made. made ≡ []) }
    {
        let ready = VecDeque::with_capacity(alloc, TASKS)?;
        Ok(Slicer { ready })
    }

    /// A list with these tasks, in their order. `NotSystem` comes exactly where they are no rotation: a task stands twice, or there
    /// are more than 16. It takes the room for all tasks.
    pub fn of(alloc: Global, rows: &[TaskNo]) -> Result<Slicer, ReviveError>
        ensures rows { IfOk result (λ made. made ≡ rows.now) }
        ensures refused { IfErr result (λ cause. cause ≢ ReviveError.NoMemory → IsRotation rows.now → ⊥) }
    {
        let mut made = Slicer::new(alloc)?;
        for task in rows {
            if !made.has_place(*task) {
                return Err(ReviveError::NotSystem);
            }
            made.wake(*task);
        }
        Ok(made)
    }

    /// The task at a place of the list, from 0; `None` exactly past its end.
    pub fn row(&self, place: u32) -> Option<TaskNo>
        ensures { result ≡ slice_get self.now place }
    {
        self.ready.get(place as usize).copied()
    }

    /// Takes the task whose turn is next out of the list; `None` exactly where none is ready.
    pub fn next(&mut self) -> Option<TaskNo>
        ensures task { result ≡ slice_get self.old 0 }
        ensures others { self.new ≡ drop 1 self.old }
    {
        self.ready.pop_front()
    }

    /// A task that waited, or whose command begins, comes to the list's back.
    pub fn wake(&mut self, task: TaskNo)
        requires apart { is_ready task self.old ≡ false }
        requires room { length self.old < TASKS }
        ensures { self.new ≡ at_back task self.old }
    {
        self.ready.push_back_reserved(task);
    }

    /// A task whose turn ended and that is still ready comes to the list's back.
    pub fn back(&mut self, task: TaskNo)
        requires apart { is_ready task self.old ≡ false }
        requires room { length self.old < TASKS }
        ensures { self.new ≡ at_back task self.old }
    {
        self.ready.push_back_reserved(task);
    }

    /// Whether a task is in the list.
    pub fn is_ready(&self, task: TaskNo) -> bool
        ensures { result ≡ is_ready task self.now }
    {
        self.ready.iter().any(|other| other.is(task))
    }

    /// A task is no longer in the list, wherever it stood; the others stay in their order.
    pub fn leave(&mut self, task: TaskNo)
        ensures { self.new ≡ without task self.old }
    {
        self.ready.retain(|other| !other.is(task));
    }

    /// Whether a task can come into the list: it is not there, and fewer than 16 tasks are.
    fn has_place(&self, task: TaskNo) -> bool
        ensures { result ≡ has_place task self.now }
    {
        self.ready.len() < TASKS && !self.is_ready(task)
    }

    /// What holds of every ready list: no task stands twice, and there are at most 16.
    pub fn law(&self)
        ensures { IsRotation self.now }
    {
        let _ready = &self.ready;
    }
}
