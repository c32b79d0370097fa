//! The tasks of rows, each behind those that are older.
ghost use Rattle.std.specs.Prelude.{◌≡◌, ◌≢◌, true, false, [], ◌∷◌, ◌++◌, map, IfErr, IfOk, OnOk};
ghost use Rattle.std.specs.List.{list_all, list_any};
ghost use Rattle.task_tree.specs.Rows as spec;
ghost use Rattle.task_tree.specs.Tree.{number, has_number};
ghost use Rattle.task_tree.specs.Whole.{IsGrown};

use crate::{Task, TreeRow};
use containers::{Bytes, NoMemory};
use eu_base::{ReviveError, is_name};
use std::alloc::Global;
use task_numbers::{TASKS, TaskNo};

/// The number of `UR`.
const UR: TaskNo = TaskNo(1);

/// The tasks of these rows. `NotSystem` comes exactly where one of them cannot stand behind those before it.
pub(crate) fn tasks_of(alloc: Global, last: u32, rows: &[TreeRow]) -> Result<Vec<Task>, ReviveError>
    ensures grown { IfOk result (λ tasks. IsGrown (record { tasks = tasks.items; last = last })) }
    ensures tasks { IfOk result (λ tasks. tasks.items ≡ map spec.task_of rows.now) }
    ensures refused { IfErr result (λ cause. cause ≢ ReviveError.NoMemory → IsGrown (record { tasks = map spec.task_of rows.now; last = last }) → ⊥) }
{
    let mut tasks = Vec::new(alloc);
    for row in rows {
        if !can_follow(last, &tasks, row) {
            return Err(ReviveError::NotSystem);
        }
        add(alloc, &mut tasks, row)?;
    }
    Ok(tasks)
}

/// Whether `UR` is among these.
pub(crate) fn has_ur(tasks: &[Task]) -> bool
    ensures { result ≡ list_any (has_number (number 1)) tasks.now }
{
    is_among(tasks, UR)
}

/// Whether two lists of tasks are the same.
pub(crate) fn are_same(tasks: &[TaskNo], others: &[TaskNo]) -> bool
    ensures same { result ≡ true → tasks.now ≡ others.now }
    ensures other { result ≡ false → tasks.now ≢ others.now }
{
    tasks == others
}

fn add(alloc: Global, tasks: &mut Vec<Task>, row: &TreeRow) -> Result<(), NoMemory>
    ensures { OnOk result (tasks.new.items ≡ tasks.old.items ++ spec.task_of row.now ∷ []) }
{
    let name = Bytes::from(alloc, row.name.as_slice())?;
    let task = Task {
        number: row.number,
        name,
        father: row.father,
    };
    tasks.push(task)?;
    Ok(())
}

fn can_follow(last: u32, before: &[Task], row: &TreeRow) -> bool
    ensures { result ≡ spec.can_follow last before.now (spec.task_of row.now) }
{
    before.len() < TASKS
        && is_name(row.name.as_slice())
        && is_given(last, row.number)
        && is_youngest(before, row)
        && has_father_among(before, row)
}

fn is_given(last: u32, task: TaskNo) -> bool
    ensures { result ≡ spec.is_given last task }
{
    !task.is_nil() && task.0 <= last
}

fn is_youngest(before: &[Task], row: &TreeRow) -> bool
    ensures { result ≡ list_all (spec.is_younger (spec.task_of row.now)) before.now }
{
    before.iter().all(|task| is_younger(row, task))
}

fn is_younger(row: &TreeRow, task: &Task) -> bool
    ensures { result ≡ spec.is_younger (spec.task_of row.now) task.now }
{
    task.number.0 < row.number.0 && task.name.as_slice() != row.name.as_slice()
}

fn has_father_among(before: &[Task], row: &TreeRow) -> bool
    ensures { result ≡ spec.has_father_among before.now (spec.task_of row.now) }
{
    if row.number.is(UR) {
        row.father.is_nil()
    } else {
        is_among(before, row.father)
    }
}

fn is_among(tasks: &[Task], task: TaskNo) -> bool
    ensures { result ≡ list_any (has_number task) tasks.now }
{
    tasks.iter().any(|other| other.number.is(task))
}
