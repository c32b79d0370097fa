//! Walks over the descendants of a task.
ghost use Rattle.std.specs.Prelude.{◌≡◌, ◌≤◌, ◌+◌, ◌++◌, IfOk, OnOk};
ghost use Rattle.task_tree.specs.Families as spec;

use crate::TaskTree;
use containers::NoMemory;
use std::alloc::Global;
use task_numbers::{TASKS, TaskNo};

/// A task of the tree, and how many levels it stands below the first.
#[derive(Clone, Copy, PartialEq, Eq)]
pub struct Entry {
    /// The task.
    pub task: TaskNo,
    /// How many levels it stands below the first.
    pub level: u32,
}

/// A task and its descendants, each behind its own descendants, and sons from the oldest.
pub fn family(alloc: Global, tree: &TaskTree, task: TaskNo) -> Result<Vec<TaskNo>, NoMemory>
    ensures { IfOk result (λ family. family.items ≡ spec.family task tree.now) }
{
    let mut family = Vec::new(alloc);
    descend(alloc, tree, TASKS, task, &mut family)?;
    Ok(family)
}

/// A task and its descendants, each before its own descendants, and sons from the oldest.
pub fn listed(alloc: Global, tree: &TaskTree, task: TaskNo) -> Result<Vec<Entry>, NoMemory>
    ensures { IfOk result (λ entries. entries.items ≡ spec.listed task tree.now) }
{
    let mut entries = Vec::new(alloc);
    list(alloc, tree, TASKS, 0, task, &mut entries)?;
    Ok(entries)
}

/// Adds a task and its descendants, where the tree has at most so many levels from it on.
fn descend(
    alloc: Global,
    tree: &TaskTree,
    levels: usize,
    task: TaskNo,
    out: &mut Vec<TaskNo>,
) -> Result<(), NoMemory>
    ensures { OnOk result (out.new.items ≡ out.old.items ++ spec.descent levels task tree.now) }
{
    if levels == 0 {
        return Ok(());
    }
    let sons = tree.sons(alloc, task)?;
    for son in &sons {
        descend(alloc, tree, levels - 1, *son, out)?;
    }
    out.push(task)?;
    Ok(())
}

/// Adds a task at this level and its descendants, where the tree has at most so many levels from it on.
fn list(
    alloc: Global,
    tree: &TaskTree,
    levels: usize,
    level: u32,
    task: TaskNo,
    out: &mut Vec<Entry>,
) -> Result<(), NoMemory>
    requires { level + levels ≤ TASKS }
    ensures { OnOk result (out.new.items ≡ out.old.items ++ spec.entries levels level task tree.now) }
{
    if levels == 0 {
        return Ok(());
    }
    out.push(Entry { task, level })?;
    let sons = tree.sons(alloc, task)?;
    for son in &sons {
        list(alloc, tree, levels - 1, level + 1, *son, out)?;
    }
    Ok(())
}
