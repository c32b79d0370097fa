//! A line of a text that is entered.
ghost use Rattle.std.specs.Prelude.{◌≡◌, ◌≤◌, ℕ, List, length, false, Some, OnOk};
ghost use Rattle.task_numbers.specs.declared.limits.TheConstants.{LONGEST_LINE};
ghost use Rattle.task_lines.specs.Below.source_texts.specs.Sources.{source_space};
ghost use Rattle.task_lines.specs.Below.system_meaning.specs.Stores.{Store, with_named};
ghost use Rattle.task_lines.specs.Below.system_meaning.specs.Tasks.{Idle, Entering};
ghost use Rattle.task_lines.specs.Below.system_meaning.specs.Systems.{Moment, doing, does, on_system};
ghost use Rattle.task_lines.specs.Below.system_meaning.specs.Monitor as spec;
ghost use Rattle.live_system.specs.Machines.{StandsAt};

use eu_base::{Bytes, NoMemory};
use live_system::System;
use std::alloc::Global;
use task_numbers::TaskNo;

/// A text gets a line more, or ends.
pub(crate) fn enter_line(
    alloc: Global,
    system: &mut System,
    task: TaskNo,
    line: Bytes,
) -> Result<(), NoMemory>
    ensures { OnOk result ((m : Moment) (name : List ℕ) (lines : List (List ℕ)) (store : Store) → doing task m.system ≡ Some (Entering name lines store)
        → length line ≤ LONGEST_LINE → StandsAt system.old m
        → StandsAt system.new (spec.entered_line (spec.is_last line) task name lines store line m)) }
{
    if is_last(line.as_slice()) {
        end_text(alloc, system, task)
    } else {
        add_line(system, task, line)
    }
}

/// Whether a line ends a text.
fn is_last(line: &[u8]) -> bool
    ensures { result ≡ spec.is_last line.now }
{
    line == b".".as_slice()
}

/// A text ends, and becomes a space under its name.
fn end_text(alloc: Global, system: &mut System, task: TaskNo) -> Result<(), NoMemory>
    ensures { OnOk result ((m : Moment) (name : List ℕ) (lines : List (List ℕ)) (store : Store) → doing task m.system ≡ Some (Entering name lines store)
        → StandsAt system.old m
        → StandsAt system.new (spec.prompted task (on_system (does task (Idle (with_named name (source_space lines) store))) m))) }
{
    system.close_text(alloc, task)?;
    system.prompt(task)?;
    Ok(())
}

/// A text gets a line more, where it has room.
fn add_line(system: &mut System, task: TaskNo, line: Bytes) -> Result<(), NoMemory>
    ensures { OnOk result ((m : Moment) (name : List ℕ) (lines : List (List ℕ)) (store : Store) → doing task m.system ≡ Some (Entering name lines store)
        → length line ≤ LONGEST_LINE → StandsAt system.old m
        → StandsAt system.new (spec.entered_line false task name lines store line m)) }
{
    if system.has_room(task) {
        system.add_line(task, line)?;
        Ok(())
    } else {
        system.tell(task, b"Zeile verworfen")?;
        Ok(())
    }
}
