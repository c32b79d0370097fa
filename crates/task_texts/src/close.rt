//! A text that ends, and becomes a space under its name.
ghost use Rattle.std.specs.Prelude.{◌≡◌, ◌+◌, ◌≤◌, ◌∷◌, List, ℕ, length, None, OnOk, OnErr};
ghost use Rattle.eu_base.specs.declared.value.Kind.{Kind};
ghost use Rattle.task_texts.specs.Below.page_table.specs.Frames.{Stands};
ghost use Rattle.task_texts.specs.Below.task_job.specs.Here.{Frames};
ghost use Rattle.task_texts.specs.Below.space_memory.specs.Memories.{roots};
ghost use Rattle.task_texts.specs.Below.source_texts.specs.Sources.{source_space};
ghost use Rattle.task_texts.specs.Below.system_meaning.specs.Stores.{Store, with_named};
ghost use Rattle.task_texts.specs.Below.system_meaning.specs.Tasks.{Own, Idle as Idles, Entering as Enters, with_doing};
ghost use Rattle.live_task.specs.Stands.{StandsFor, IsSound};

use crate::doing::take_text;
use eu_base::{MemFault, NoMemory, Nowhere};
use live_task::Task;
use named_texts::keep_text;
use page_pool::Pool;
use std::alloc::Global;

/// The text that is entered ends: it is kept as a space under its name, and the task is idle. Where none is entered, nothing happens.
/// Where memory is wanting, the task is idle too; an older space of that name may be gone.
pub fn close_text(alloc: Global, task: &mut Task, pool: &mut Pool) -> Result<(), NoMemory>
    requires sound { IsSound task.old }
    requires agree { Stands pool.old (roots task.old.memory) 1 }
    ensures closed { OnOk result ((kinds : List Kind) (own : Own) (name : List ℕ) (lines : List (List ℕ)) (store : Store) →
        own.doing ≡ Enters name lines store → StandsFor kinds pool.old task.old own →
        StandsFor kinds pool.new task.new (with_doing (Idles (with_named name (source_space lines) store)) own)) }
    ensures frames { OnOk result (Frames pool.old pool.new (roots task.old.memory) (roots task.new.memory)) }
    ensures back { OnErr result (Frames pool.old pool.new (None ∷ roots task.old.memory) (roots task.new.memory)) }
    ensures sound { IsSound task.new }
    ensures room { length (roots task.new.memory) ≤ length (roots task.old.memory) + 1 }
{
    let Some((name, lines)) = take_text(alloc, task) else {
        return Ok(());
    };
    let mut nowhere = Nowhere;
    match keep_text(
        alloc,
        &mut task.memory,
        pool,
        name.as_slice(),
        lines.as_slice(),
        &mut nowhere,
    ) {
        Ok(()) => Ok(()),
        Err(MemFault::NoMemory) => Err(NoMemory),
        // What reads as zeros has no faults.
        Err(MemFault::Failed) => unreachable!(),
    }
}
