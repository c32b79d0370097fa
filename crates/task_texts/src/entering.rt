//! A text that is entered line by line.
ghost use Rattle.std.specs.Prelude.{◌≡◌, ◌<◌, ◌≤◌, ◌++◌, [], ◌∷◌, List, ℕ, length, nat_le, not, false, true, None, OnOk, OnErr};
ghost use Rattle.eu_base.specs.declared.value.Kind.{Kind};
ghost use Rattle.page_pool.specs.Pool.{Pages};
ghost use Rattle.task_texts.specs.Below.space_names.specs.Directory as directory;
ghost use Rattle.task_texts.specs.Below.source_texts.specs.Sources.{most_lines};
ghost use Rattle.task_texts.specs.Below.system_meaning.specs.Stores.{Store, most_live, last_number, entering_refusal};
ghost use Rattle.task_texts.specs.Below.system_meaning.specs.Tasks.{Own, Idle as Idles, Entering as Enters, with_doing};
ghost use Rattle.live_task.specs.declared.task.Doing.TheVariants.{Idle};
ghost use Rattle.live_task.specs.Stands.{StandsFor, IsSound};
ghost use Rattle.task_texts.specs.Doings.{is_entering};

use crate::below::of_source_texts::{LONGEST_LINE, MOST_LINES};
use crate::doing::{begin_text, is_entering, is_idle, put_doing};
use crate::refuse::entering_refusal;
use eu_base::{Bytes, List, NoMemory};
use live_task::{Doing, Task};
use std::alloc::Global;

/// An idle task begins to enter a text under a name, where nothing speaks against it; else nothing happens. A refusal changes nothing.
pub fn enter(alloc: Global, task: &mut Task, name: &[u8]) -> Result<(), NoMemory>
    ensures entered { OnOk result ((kinds : List Kind) (pages : Pages) (own : Own) (store : Store) → own.doing ≡ Idles store →
        entering_refusal name.now store ≡ None → StandsFor kinds pages task.old own →
        StandsFor kinds pages task.new (with_doing (Enters name.now [] store) own)) }
    ensures sound { IsSound task.old → IsSound task.new }
    ensures memory { task.new.memory ≡ task.old.memory }
    ensures err { OnErr result (task.new ≡ task.old) }
{
    if !can_enter(task, name) {
        return Ok(());
    }
    let name = Bytes::from(alloc, name)?;
    begin_text(alloc, task, name);
    Ok(())
}

// Whether a task is idle, and nothing speaks against a text of this name.
fn can_enter(task: &Task, name: &[u8]) -> bool
    ensures can { (kinds : List Kind) (pages : Pages) (own : Own) (store : Store) → own.doing ≡ Idles store →
        entering_refusal name.now store ≡ None → StandsFor kinds pages task.now own → result ≡ true }
    ensures idle { result ≡ true → task.now.doing ≡ Idle }
    ensures room { result ≡ true → directory.get name.now task.now.memory.names ≡ None → length task.now.memory.spaces < most_live }
    ensures number { result ≡ true → task.now.memory.last < last_number }
{
    is_idle(task) && entering_refusal(task, name).is_none()
}

/// Whether a text is entered that has fewer lines than the most.
pub fn has_room(task: &Task) -> bool
    ensures { (kinds : List Kind) (pages : Pages) (own : Own) (name : List ℕ) (lines : List (List ℕ)) (store : Store) →
        own.doing ≡ Enters name lines store → StandsFor kinds pages task.now own → result ≡ not (nat_le most_lines (length lines)) }
{
    match &task.doing {
        Doing::Entering { lines, .. } => lines.len() < MOST_LINES as usize,
        Doing::Idle | Doing::Running(_) => false,
    }
}

/// A line comes last in the text that is entered, where it has room; else nothing happens. A refusal changes nothing.
pub fn add_line(task: &mut Task, line: Bytes) -> Result<(), NoMemory>
    requires short { length line ≤ LONGEST_LINE }
    ensures added { OnOk result ((kinds : List Kind) (pages : Pages) (own : Own) (name : List ℕ) (lines : List (List ℕ)) (store : Store) →
        own.doing ≡ Enters name lines store → nat_le most_lines (length lines) ≡ false → StandsFor kinds pages task.old own →
        StandsFor kinds pages task.new (with_doing (Enters name (lines ++ line ∷ []) store) own)) }
    ensures sound { IsSound task.old → IsSound task.new }
    ensures memory { task.new.memory ≡ task.old.memory }
    ensures err { OnErr result (task.new ≡ task.old) }
{
    match &mut task.doing {
        Doing::Entering { lines, .. } => add_to(lines, line),
        Doing::Idle | Doing::Running(_) => Ok(()),
    }
}

// A line comes last, where there are fewer than the most.
fn add_to(lines: &mut List<Bytes>, line: Bytes) -> Result<(), NoMemory>
    ensures added { OnOk result (length lines.old < most_lines → lines.new ≡ lines.old ++ line ∷ []) }
    ensures full { most_lines ≤ length lines.old → lines.new ≡ lines.old }
    ensures err { OnErr result (lines.new ≡ lines.old) }
{
    if lines.len() >= MOST_LINES as usize {
        return Ok(());
    }
    lines.push(line)
}

/// The text that is entered is dropped, and the task is idle; where none is entered, nothing happens.
pub fn drop_text(task: &mut Task)
    ensures dropped { (kinds : List Kind) (pages : Pages) (own : Own) (name : List ℕ) (lines : List (List ℕ)) (store : Store) →
        own.doing ≡ Enters name lines store → StandsFor kinds pages task.old own →
        StandsFor kinds pages task.new (with_doing (Idles store) own) }
    ensures none { (kinds : List Kind) (pages : Pages) (own : Own) → is_entering own.doing ≡ false → StandsFor kinds pages task.old own →
        StandsFor kinds pages task.new own }
    ensures sound { IsSound task.old → IsSound task.new }
    ensures memory { task.new.memory ≡ task.old.memory }
{
    if is_entering(task) {
        put_doing(task, Doing::Idle);
    }
}
