//! A line of an idle task.
ghost use Rattle.std.specs.Prelude.{◌≡◌, ◌≤◌, ℕ, Bool, List, length, false, Some, OnOk};
ghost use Rattle.task_numbers.specs.declared.limits.TheConstants.{LONGEST_LINE};
ghost use Rattle.task_lines.specs.Below.elan_scope.specs.declared.env.Env.{Env};
ghost use Rattle.task_lines.specs.Below.system_meaning.specs.Stores.{Store, entering_refusal};
ghost use Rattle.task_lines.specs.Below.system_meaning.specs.Tasks.{Idle};
ghost use Rattle.task_lines.specs.Below.system_meaning.specs.Systems.{Moment, doing, kept};
ghost use Rattle.task_lines.specs.Below.system_meaning.specs.Monitor as spec;
ghost use Rattle.task_lines.specs.Below.packet_store.specs.Readings.{IsReading};
ghost use Rattle.live_system.specs.Machines.{StandsAt};

use crate::answers::answer_stop;
use crate::forms::form_of_line;
use crate::texts::{run_named, run_text};
use eu_base::{Bytes, NoMemory};
use live_system::System;
use monitor::Form;
use std::alloc::Global;
use task_numbers::TaskNo;

/// An idle task takes a line, as what its words are.
pub(crate) fn take_idle(
    alloc: Global,
    system: &mut System,
    task: TaskNo,
    line: &[u8],
) -> Result<(), NoMemory>
    ensures { OnOk result ((read : Env → Bool → List ℕ → spec.Reading) → IsReading read → (m : Moment) (store : Store) → doing task m.system ≡ Some (Idle store)
        → length line.now ≤ LONGEST_LINE → StandsAt system.old m
        → StandsAt system.new (spec.worded read (spec.words_of line.now) task line.now m)) }
{
    let form = form_of_line(alloc, line)?;
    take_formed(alloc, system, task, line, form)
}

/// An idle task takes a line of this form.
fn take_formed(
    alloc: Global,
    system: &mut System,
    task: TaskNo,
    line: &[u8],
    form: Form,
) -> Result<(), NoMemory>
    ensures { OnOk result ((read : Env → Bool → List ℕ → spec.Reading) → IsReading read → (m : Moment) (store : Store) → doing task m.system ≡ Some (Idle store)
        → length line.now ≤ LONGEST_LINE → StandsAt system.old m
        → StandsAt system.new (spec.formed read form task line.now m)) }
{
    match form {
        Form::Blank => system.prompt(task),
        Form::Enter(name) => enter(alloc, system, task, name.as_slice()),
        Form::Run(name) => run_named(alloc, system, task, false, name.as_slice()),
        Form::Insert(name) => run_named(alloc, system, task, true, name.as_slice()),
        Form::Names => tell_names(alloc, system, task),
        Form::Program => run_text(alloc, system, task, false, line),
    }
}

/// A text is entered under a name, unless it is refused.
fn enter(alloc: Global, system: &mut System, task: TaskNo, name: &[u8]) -> Result<(), NoMemory>
    ensures { OnOk result ((m : Moment) (store : Store) → doing task m.system ≡ Some (Idle store) → StandsAt system.old m
        → StandsAt system.new (spec.enter_unless (entering_refusal name.now (kept task m.system)) task name.now m)) }
{
    match system.entering_refusal(task, name) {
        Some(stop) => answer_stop(alloc, system, task, &stop),
        None => system.enter(alloc, task, name),
    }
}

/// The names of the directory are told, and the task prompts.
fn tell_names(alloc: Global, system: &mut System, task: TaskNo) -> Result<(), NoMemory>
    ensures { OnOk result ((m : Moment) → StandsAt system.old m
        → StandsAt system.new (spec.prompted task (spec.names_told task (spec.directory_of (kept task m.system)) m))) }
{
    let names = system.names(alloc, task)?;
    tell_each(system, task, names.as_slice())?;
    system.prompt(task)?;
    Ok(())
}

/// Each name is told as a line.
fn tell_each(system: &mut System, task: TaskNo, names: &[Bytes]) -> Result<(), NoMemory>
    ensures { OnOk result ((m : Moment) → StandsAt system.old m → StandsAt system.new (spec.names_told task names.now m)) }
{
    for name in names {
        system.tell(task, name.as_slice())?;
    }
    Ok(())
}
