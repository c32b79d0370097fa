//! Tasks that end, with their descendants.
ghost use Rattle.std.specs.Prelude.{◌≡◌, true, false, fold, IfOk, IfSome, OnOk};
ghost use Rattle.std.specs.List.{list_any};
ghost use Rattle.task_numbers.specs.Numbers.{is_task};
ghost use Rattle.eu_base.specs.Requests.{is_plain};
ghost use Rattle.task_requests.specs.Below.task_tree.specs.Tree as tree;
ghost use Rattle.task_requests.specs.Below.task_tree.specs.Ends.{EndInTurn};
ghost use Rattle.task_requests.specs.Below.system_meaning.specs.Systems.{Moment};
ghost use Rattle.task_requests.specs.Below.system_meaning.specs.Ends.{ended, ended_with_descendants};
ghost use Rattle.task_requests.specs.Below.system_meaning.specs.Serving as spec;
ghost use Rattle.live_system.specs.Machines.{StandsAt};
ghost use Rattle.task_requests.specs.Served.{ServedAs};

use eu_base::{NoMemory, Reply, Stop};
use live_system::System;
use std::alloc::Global;
use task_numbers::TaskNo;

/// A task ends another, or itself; one that does not live has ended already.
pub(crate) fn end(
    alloc: Global,
    system: &mut System,
    task: TaskNo,
    other: TaskNo,
) -> Result<Option<Reply>, NoMemory>
    ensures served { IfOk result (λ reply. (m : Moment) → StandsAt system.old m →
        ServedAs (spec.end_living (tree.lives other m.system.shared.tree) task other m) system.new reply) }
    ensures plain { IfOk result (λ reply. IfSome reply (λ r. is_plain r ≡ true)) }
{
    let lives = system.lives(other);
    if !lives {
        return Ok(Some(Reply::Done));
    }
    end_living(alloc, system, task, other)
}

/// A task ends one that lives, where it may.
fn end_living(
    alloc: Global,
    system: &mut System,
    task: TaskNo,
    other: TaskNo,
) -> Result<Option<Reply>, NoMemory>
    ensures served { IfOk result (λ reply. (m : Moment) → tree.lives other m.system.shared.tree ≡ true → StandsAt system.old m →
        ServedAs (spec.end_allowed (spec.may_end task other m.system) task other m) system.new reply) }
    ensures plain { IfOk result (λ reply. IfSome reply (λ r. is_plain r ≡ true)) }
{
    let may = may_end(alloc, system, task, other)?;
    if !may {
        return Ok(Some(Reply::Stopped(Stop::NoRight)));
    }
    end_allowed(alloc, system, task, other)
}

/// A task ends one that it may end. It is gone where that is itself.
fn end_allowed(
    alloc: Global,
    system: &mut System,
    task: TaskNo,
    other: TaskNo,
) -> Result<Option<Reply>, NoMemory>
    ensures served { IfOk result (λ reply. (m : Moment) → tree.lives other m.system.shared.tree ≡ true → spec.is_first other ≡ false → StandsAt system.old m →
        ServedAs (spec.end_allowed true task other m) system.new reply) }
    ensures plain { IfOk result (λ reply. IfSome reply (λ r. is_plain r ≡ true)) }
{
    end_family(alloc, system, other)?;
    if task.is(other) {
        Ok(None)
    } else {
        Ok(Some(Reply::Done))
    }
}

/// Whether a task may end another: one of its family, but neither of the first two.
fn may_end(alloc: Global, system: &System, task: TaskNo, other: TaskNo) -> Result<bool, NoMemory>
    ensures { IfOk result (λ may. (m : Moment) → StandsAt system.now m → may ≡ spec.may_end task other m.system) }
{
    let first = is_first(other);
    if first {
        return Ok(false);
    }
    let family = system.family(alloc, task)?;
    Ok(is_among(family.as_slice(), other))
}

/// Whether a task is among these.
fn is_among(tasks: &[TaskNo], task: TaskNo) -> bool
    ensures { result ≡ list_any (is_task task) tasks.now }
{
    tasks.iter().any(|member| task.is(*member))
}

/// Whether a task is one of the first two.
fn is_first(task: TaskNo) -> bool
    ensures { result ≡ spec.is_first task }
{
    task.is(TaskNo(1)) || task.is(TaskNo(2))
}

/// A task ends, and before it its descendants.
fn end_family(alloc: Global, system: &mut System, task: TaskNo) -> Result<(), NoMemory>
    ensures { OnOk result ((m : Moment) → tree.lives task m.system.shared.tree ≡ true → spec.is_first task ≡ false → StandsAt system.old m →
        StandsAt system.new (ended_with_descendants task m)) }
{
    let family = system.family(alloc, task)?;
    end_each(system, family.as_slice())?;
    Ok(())
}

/// Tasks end one after another.
fn end_each(system: &mut System, tasks: &[TaskNo]) -> Result<(), NoMemory>
    ensures { OnOk result ((m : Moment) → EndInTurn tasks.now m.system.shared.tree → StandsAt system.old m → StandsAt system.new (fold ended m tasks.now)) }
{
    for task in tasks {
        system.end(*task)?;
    }
    Ok(())
}
