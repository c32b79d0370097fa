//! What is told of a task and of its spaces.
ghost use Rattle.std.specs.Prelude.{◌≡◌, ◌≤◌, List, Some, IfOk, option_copied};
ghost use Rattle.eu_base.specs.declared.value.Kind.{Kind};
ghost use Rattle.page_pool.specs.Pool.{Pages};
ghost use Rattle.task_texts.specs.Below.page_table.specs.Entries.{Names};
ghost use Rattle.task_texts.specs.Below.page_table.specs.Frames.{Stands};
ghost use Rattle.task_texts.specs.Below.task_job.specs.Here.{Frames};
ghost use Rattle.task_texts.specs.Below.space_memory.specs.Memories.{roots};
ghost use Rattle.named_texts.specs.Sources.{source_in, IsShort};
ghost use Rattle.task_texts.specs.Below.system_meaning.specs.Stores.{space_under};
ghost use Rattle.task_texts.specs.Below.system_meaning.specs.Tasks.{Own, now};
ghost use Rattle.task_texts.specs.Below.system_meaning.specs.Monitor.{directory_of};
ghost use Rattle.task_texts.specs.Below.system_meaning.specs.Supervisor.{spaces_of, state_of, running_state};
ghost use Rattle.live_task.specs.Stands.{StandsFor};

use eu_base::{Bytes, List, MemFault, NoMemory, Nowhere, Request};
use live_task::{Doing, Task};
use named_texts::{Source, names as names_in, text_under};
use page_pool::Pool;
use std::alloc::Global;

/// The names of its directory, in order of entry.
pub fn names(alloc: Global, task: &Task) -> Result<List<Bytes>, NoMemory>
    ensures { IfOk result (λ names. (kinds : List Kind) (pages : Pages) (own : Own) → StandsFor kinds pages task.now own →
        names ≡ directory_of (now own.doing)) }
{
    names_in(alloc, &task.memory)
}

/// How many data spaces it has: at most 16.
pub fn spaces(task: &Task) -> usize
    ensures count { (kinds : List Kind) (pages : Pages) (own : Own) → StandsFor kinds pages task.now own → result ≡ spaces_of own }
    ensures few { result ≤ 16 }
{
    task.memory.count() as usize
}

/// Whether it is idle, entering, running or waiting, in a word.
pub fn state(task: &Task) -> &'static [u8]
    ensures { (kinds : List Kind) (pages : Pages) (own : Own) → StandsFor kinds pages task.now own → result.now ≡ state_of (Some own.doing) }
{
    match &task.doing {
        Doing::Idle => b"frei",
        Doing::Entering { .. } => b"liest",
        Doing::Running(_) => running_state(task.asked()),
    }
}

// Whether a command computes or waits for what it asks.
fn running_state(asked: Option<&Request>) -> &'static [u8]
    ensures { result.now ≡ running_state (option_copied asked.entry) }
{
    match asked {
        None => b"rechnet",
        Some(_) => b"wartet",
    }
}

/// The text of the space under a name, with fewer than 4,294,967,296 bytes; a longer one is one that memory is wanting for.
pub fn source_under(
    alloc: Global,
    task: &Task,
    pool: &mut Pool,
    name: &[u8],
) -> Result<Source, NoMemory>
    requires agree { Stands pool.old (roots task.now.memory) 0 }
    ensures source { IfOk result (λ source. (kinds : List Kind) (own : Own) → StandsFor kinds pool.old task.now own →
        source ≡ source_in (space_under name.now (now own.doing))) }
    ensures short { IfOk result IsShort }
    ensures frames { (mine : Names) → Frames pool.old pool.new mine mine }
{
    let mut nowhere = Nowhere;
    match text_under(alloc, &task.memory, pool, name, &mut nowhere) {
        Ok(source) => Ok(source),
        Err(MemFault::NoMemory) => Err(NoMemory),
        // What reads as zeros has no faults.
        Err(MemFault::Failed) => unreachable!(),
    }
}
