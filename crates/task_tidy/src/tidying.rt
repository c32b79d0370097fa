//! A task whose command is over.
ghost use Rattle.std.specs.Prelude.{◌≡◌, ◌≤◌, length, OnOk};
ghost use Rattle.task_tidy.specs.Below.space_memory.specs.Memories.{roots, most_roots, StandsWhole};
ghost use Rattle.task_tidy.specs.Below.task_job.specs.Here.{MemoryFrames};
ghost use Rattle.task_tidy.specs.Below.system_meaning.specs.Stores.{Store, tidied};
ghost use Rattle.task_tidy.specs.Below.system_meaning.specs.Tasks.{Own, Idle, with_doing};
ghost use Rattle.task_tidy.specs.Below.task_job.specs.Standing.{Keeps};
ghost use Rattle.task_tidy.specs.Below.live_task.specs.Stands.{StandsFor, IsSound};
ghost use Rattle.task_tidy.specs.Tidied.{kinds_with};

use crate::below::of_space_memory::SpaceMemory;
use crate::forgetting::forget_unused;
use cell_kinds::{CellKinds, Packet};
use eu_base::{CELLS, NoMemory};
use page_pool::Pool;
use std::alloc::Global;
use task_messages::{Doing, Task};
use zero_machine::count_cells;

/// The data spaces of an idle task are forgotten that no variable of its packets and no name denotes. The kinds of the variables are those of
/// these packets, and those that stand behind them.
pub fn tidy(
    task: &mut Task,
    alloc: Global,
    pool: &mut Pool,
    packets: &[Packet],
    behind: &CellKinds,
) -> Result<(), NoMemory>
    requires agree { StandsWhole pool.old (roots task.old.memory) }
    ensures tidied { OnOk result ((own : Own) (store : Store) → own.doing ≡ Idle store →
        StandsFor (kinds_with packets.now behind.now) pool.old task.old own →
        StandsFor (kinds_with packets.now behind.now) pool.new task.new (with_doing (Idle (tidied store)) own)) }
    ensures same { task.new ≡ record task.old { memory = task.new.memory } }
    ensures sound { IsSound task.old → IsSound task.new }
    ensures few { length (roots task.new.memory) ≤ most_roots }
    ensures frames { MemoryFrames pool.old pool.new (roots task.old.memory) (roots task.new.memory) }
{
    let Doing::Idle = &task.doing else {
        return Ok(());
    };
    tidy_memory(alloc, &mut task.memory, pool, packets, behind)
}

// Variables that stand in cells have room, so the rest is always reached.
fn tidy_memory(
    alloc: Global,
    memory: &mut SpaceMemory,
    pool: &mut Pool,
    packets: &[Packet],
    behind: &CellKinds,
) -> Result<(), NoMemory>
    requires agree { StandsWhole pool.old (roots memory.old) }
    ensures tidied { OnOk result ((store : Store) → Keeps (kinds_with packets.now behind.now) pool.old memory.old store →
        Keeps (kinds_with packets.now behind.now) pool.new memory.new (tidied store)) }
    ensures stands { StandsWhole pool.new (roots memory.new) }
    ensures frames { MemoryFrames pool.old pool.new (roots memory.old) (roots memory.new) }
{
    let cells = count_cells(packets).saturating_add(behind.len());
    if cells > usize::from(CELLS) {
        return Ok(());
    }
    forget_unused(alloc, memory, pool, packets, behind)?;
    Ok(())
}
