//! The live tasks.
ghost use Rattle.std.specs.Prelude.{◌≡◌, ◌≢◌, ◌<◌, true, false, None, Some, find, length, option_map, position, slice_get, All, IfErr, IfOk, OnErr, OnOk};
ghost use Rattle.std.specs.List.{list_any};
ghost use Rattle.std.specs.Option.{option_copied};
ghost use Rattle.task_numbers.specs.Numbers.{niltask};
ghost use Rattle.task_tree.specs.Tree as spec;
ghost use Rattle.eu_base.specs.SpaceOperations.{is_name};
ghost use Rattle.task_tree.specs.Rows.{row_of, rows_of};
ghost use Rattle.task_tree.specs.declared.row.TreeRow.{TreeRow as Row};
ghost use Rattle.task_tree.specs.Trees.{IsTree};
ghost use Rattle.task_tree.specs.Whole.{IsWhole};

use crate::rebuild::{are_same, has_ur, tasks_of};
use crate::{BeginError, Task, TreeRow};
use containers::{Bytes, List, NoMemory};
use eu_base::ReviveError;
use std::alloc::Global;
use std::marker::Model;
use task_numbers::{TASKS, TaskNo};

/// The last number that a task can have.
const LAST_NUMBER: u32 = u32::MAX;

/// The tree of tasks: the live ones by age, and the last number that was given.
#[derive(Drop)]
pub struct TaskTree {
    tasks: Vec<Task>,
    last: u32,
}

impl Model for TaskTree {
    ghost use Rattle.task_tree.specs.Tree as spec;

    ghost Value = { spec.Tree };

    ghost view = { λ tree. record { tasks = tree.tasks.items; last = tree.last } };

    ghost use Rattle.task_tree.specs.Whole.{IsWhole};

    ghost invariant = { λ tree. IsWhole (record { tasks = tree.tasks.items; last = tree.last }) };
}

impl TaskTree {
    /// `UR` with number 1, and its son `PUBLIC` with number 2.
    pub fn opening(alloc: Global) -> Result<TaskTree, NoMemory>
        ensures { IfOk result (λ made. made ≡ spec.opening) }
    {
        let mut tasks = Vec::new(alloc);
        tasks.push(Task {
            number: TaskNo(1),
            name: Bytes::from(alloc, b"UR")?,
            father: TaskNo::NIL,
        })?;
        tasks.push(Task {
            number: TaskNo(2),
            name: Bytes::from(alloc, b"PUBLIC")?,
            father: TaskNo(1),
        })?;
        Ok(TaskTree { tasks, last: 2 })
    }

    /// The tree with these rows, by age, and with this as the last number that was given. `NotSystem` comes exactly where no tree
    /// has them.
    pub fn of(alloc: Global, last: u32, rows: &[TreeRow]) -> Result<TaskTree, ReviveError>
        ensures last { IfOk result (λ tree. tree.last ≡ last) }
        ensures rows { IfOk result (λ tree. rows_of tree ≡ rows.now) }
        ensures same { IfOk result (λ tree. (s : spec.Tree) → s.last ≡ last → rows_of s ≡ rows.now → tree ≡ s) }
        ensures refused { IfErr result (λ cause. cause ≢ ReviveError.NoMemory
            → (s : spec.Tree) → IsWhole s → s.last ≡ last → rows_of s ≡ rows.now → ⊥) }
    {
        let tasks = match tasks_of(alloc, last, rows) {
            Ok(tasks) => tasks,
            Err(cause) => return Err(cause),
        };
        if !has_ur(&tasks) {
            return Err(ReviveError::NotSystem);
        }
        let tree = TaskTree { tasks, last };
        if !tree.has_all_sons(alloc, rows)? {
            return Err(ReviveError::NotSystem);
        }
        Ok(tree)
    }

    /// The number of the task at a place by age, from 0; `None` exactly past the last.
    pub fn row(&self, place: u32) -> Option<TaskNo>
        ensures { result ≡ option_map (λ u. u.number) (slice_get self.now.tasks place) }
    {
        match self.tasks.get(place as usize) {
            Some(task) => Some(task.number),
            None => None,
        }
    }

    /// The rows of all tasks, by age.
    pub fn rows(&self, alloc: Global) -> Result<List<TreeRow>, NoMemory>
        ensures { IfOk result (λ rows. rows ≡ rows_of self.now) }
    {
        let mut rows = List::new(alloc);
        for task in &self.tasks {
            let row = self.row_of(alloc, task)?;
            rows.push(row)?;
        }
        Ok(rows)
    }

    /// The last number that was given.
    pub fn last_number(&self) -> u32
        ensures { result ≡ self.now.last }
    {
        self.last
    }

    /// Whether a task lives.
    pub fn lives(&self, task: TaskNo) -> bool
        ensures { result ≡ spec.lives task self.now }
    {
        self.tasks.iter().any(|other| other.number.is(task))
    }

    /// The number of the task of this name, or niltask.
    pub fn named(&self, name: &[u8]) -> TaskNo
        ensures { result ≡ spec.named name.now self.now }
    {
        number_of(self.with_name(name))
    }

    /// The name of a task; no bytes where it does not live.
    pub fn name(&self, task: TaskNo) -> &[u8]
        ensures { result.now ≡ spec.name task self.now }
    {
        match self.with_number(task) {
            Some(task) => task.name.as_slice(),
            None => &[],
        }
    }

    /// The father of a task, or niltask.
    pub fn father(&self, task: TaskNo) -> TaskNo
        ensures { result ≡ spec.father task self.now }
    {
        match self.with_number(task) {
            Some(task) => task.father,
            None => TaskNo::NIL,
        }
    }

    /// The oldest son of a task, or niltask.
    pub fn son(&self, task: TaskNo) -> TaskNo
        ensures { result ≡ spec.son task self.now }
    {
        if task.is_nil() {
            return TaskNo::NIL;
        }
        number_of(self.oldest_son(task))
    }

    /// The next younger son of the task's father, or niltask.
    pub fn brother(&self, task: TaskNo) -> TaskNo
        ensures { result ≡ spec.brother task self.now }
    {
        match self.with_number(task) {
            Some(task) => number_of(self.younger_brother(task)),
            None => TaskNo::NIL,
        }
    }

    /// All sons of a task, from the oldest.
    pub fn sons(&self, alloc: Global, task: TaskNo) -> Result<Vec<TaskNo>, NoMemory>
        ensures { IfOk result (λ sons. sons.items ≡ spec.sons task self.now) }
    {
        let sons = self
            .tasks
            .iter()
            .filter(|other| other.father.is(task))
            .map(|son| son.number);
        Ok(sons.collect(alloc)?)
    }

    /// How many tasks live.
    pub fn count(&self) -> usize
        ensures { result ≡ length self.now.tasks }
    {
        self.tasks.len()
    }

    /// The place of a task among the live ones by age; `None` exactly where it does not live.
    pub fn place(&self, task: TaskNo) -> Option<usize>
        ensures { result ≡ position (spec.has_number task) self.now.tasks }
    {
        self.tasks.iter().position(|other| other.number.is(task))
    }

    /// The number of the next task that begins; `None` exactly where the last number was used.
    pub fn next(&self) -> Option<TaskNo>
        ensures { result ≡ spec.next_number self.now }
    {
        if self.last == LAST_NUMBER {
            return None;
        }
        Some(TaskNo(self.last + 1))
    }

    /// Why no task of this name begins, the first reason that holds.
    pub fn refusal(&self, name: &[u8]) -> Option<BeginError>
        ensures { result ≡ spec.refusal name.now self.now }
    {
        if self.is_taken(name) {
            return Some(BeginError::NameTaken);
        }
        if self.tasks.len() >= TASKS {
            return Some(BeginError::TreeFull);
        }
        if self.last == LAST_NUMBER {
            return Some(BeginError::NumbersSpent);
        }
        None
    }

    /// A son of a live task begins: it gets the next number, which is the result. `NameTaken`, `TreeFull` and `NumbersSpent`
    /// come exactly where a live task has the name, 16 tasks live, or the last number was used, and none of those before holds.
    /// A refusal changes nothing.
    pub fn begin(
        &mut self,
        alloc: Global,
        name: &[u8],
        father: TaskNo,
    ) -> Result<TaskNo, BeginError>
        requires live { spec.lives father self.old ≡ true }
        requires named { is_name name.now ≡ true }
        ensures free { OnOk result (spec.refusal name.now self.old ≡ None) }
        ensures number { IfOk result (λ task. task ≡ spec.next self.old) }
        ensures begun { OnOk result (self.new ≡ spec.begun name.now father self.old) }
        ensures refused { IfErr result (λ cause. cause ≢ BeginError.NoMemory → spec.refusal name.now self.old ≡ Some cause) }
        ensures unchanged { OnErr result (self.new ≡ self.old) }
    {
        if self.is_taken(name) {
            return Err(BeginError::NameTaken);
        }
        if self.tasks.len() >= TASKS {
            return Err(BeginError::TreeFull);
        }
        if self.last == LAST_NUMBER {
            return Err(BeginError::NumbersSpent);
        }
        let number = TaskNo(self.last + 1);
        let name = Bytes::from(alloc, name)?;
        let task = Task {
            number,
            name,
            father,
        };
        if self.tasks.push(task).is_err() {
            return Err(BeginError::NoMemory);
        }
        self.last += 1;
        Ok(number)
    }

    /// A task without sons ends, which is neither `UR` nor `PUBLIC`.
    pub fn end(&mut self, task: TaskNo)
        requires live { spec.lives task self.old ≡ true }
        requires childless { spec.son task self.old ≡ niltask }
        requires later { 2 < task.0 }
        ensures { self.new ≡ spec.ended task self.old }
    {
        self.tasks.retain(|other| !other.number.is(task));
    }

    fn with_name(&self, name: &[u8]) -> Option<&Task>
        ensures { option_copied result ≡ find (spec.has_name name.now) self.now.tasks }
    {
        self.tasks.iter().find(|task| has_name(name, task))
    }

    fn oldest_son(&self, father: TaskNo) -> Option<&Task>
        ensures { option_copied result ≡ find (spec.has_father father) self.now.tasks }
    {
        self.tasks.iter().find(|task| task.father.is(father))
    }

    fn younger_brother(&self, task: &Task) -> Option<&Task>
        ensures { option_copied result ≡ find (spec.is_younger_brother task.now) self.now.tasks }
    {
        self.tasks
            .iter()
            .find(|other| is_younger_brother(task, other))
    }

    /// What holds of every tree: at most 16 tasks, by age, no two with one number or one name, each but `UR` with a living
    /// father that is older; and a number that was given is not given again. `UR` lives, alone has no father, and names have 1 to
    /// 60 bytes.
    pub fn law(&self)
        ensures tree { IsTree self.now }
        ensures whole { IsWhole self.now }
    {
        let _tasks = &self.tasks;
    }

    /// Whether each row has the sons of its task.
    fn has_all_sons(&self, alloc: Global, rows: &[TreeRow]) -> Result<bool, NoMemory>
        ensures all { IfOk result (λ all. all ≡ true → All (λ (r : Row). r.sons ≡ spec.sons r.number self.now) rows.now) }
        ensures some { IfOk result (λ all. all ≡ false → All (λ (r : Row). r.sons ≡ spec.sons r.number self.now) rows.now → ⊥) }
    {
        for row in rows {
            let sons = self.sons(alloc, row.number)?;
            if !are_same(row.sons.as_slice(), &sons) {
                return Ok(false);
            }
        }
        Ok(true)
    }

    fn row_of(&self, alloc: Global, task: &Task) -> Result<TreeRow, NoMemory>
        ensures { IfOk result (λ row. row ≡ row_of self.now task.now) }
    {
        let name = Bytes::from(alloc, task.name.as_slice())?;
        let sons = self.sons(alloc, task.number)?;
        Ok(TreeRow {
            number: task.number,
            name,
            father: task.father,
            sons: List::from_vec(sons),
        })
    }

    fn is_taken(&self, name: &[u8]) -> bool
        ensures { result ≡ list_any (spec.has_name name.now) self.now.tasks }
    {
        self.tasks.iter().any(|task| has_name(name, task))
    }

    fn with_number(&self, task: TaskNo) -> Option<&Task>
        ensures { option_copied result ≡ spec.with_number task self.now }
    {
        self.tasks.iter().find(|other| other.number.is(task))
    }
}

fn number_of(task: Option<&Task>) -> TaskNo
    ensures { result ≡ spec.number_of (option_copied task.entry) }
{
    match task {
        Some(task) => task.number,
        None => TaskNo::NIL,
    }
}

fn has_name(name: &[u8], task: &Task) -> bool
    ensures { result ≡ spec.has_name name.now task.now }
{
    task.name.as_slice() == name
}

fn is_younger_brother(task: &Task, other: &Task) -> bool
    ensures { result ≡ spec.is_younger_brother task.now other.now }
{
    other.father.is(task.father) && task.number.0 < other.number.0
}
